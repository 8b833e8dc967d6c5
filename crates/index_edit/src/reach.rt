//! Items of an index, found and added.
ghost use Rattle.std.specs.Prelude.{◌≡◌, ◌≢◌, ◌≤◌, ◌<◌, ◌^◌, ◌+◌, ◌∷◌, [], ℕ, List, Option, Some, length, IfOk, IfErr};
ghost use Rattle.heap_items.specs.Items.{AddsItem};
ghost use Rattle.bth_tree.specs.Making.{header_of};
ghost use Rattle.bth_tree.specs.Records.{ordered, whole};
ghost use Rattle.bth_tree.specs.Tree.{bth, gather, root as root_of, tree};
ghost use Rattle.index_edit.specs.Adding.{AddsInner, AddsLeaf, HasIndex, HasTop, NotFault};
ghost use Rattle.index_edit.specs.Edits.{IsItem};

use crate::leaf::MOST;
use crate::pairs::Pair;
use crate::stop::IndexStop;
use heap_items::HeapItems;
use pst_base::{u8_at, u32_at};

/// The item under a heap id.
pub fn item<H: HeapItems>(heap: &H, hid: u32) -> Result<&[u8], IndexStop<H::Stop>>
    ensures found { IfOk result (λ x. (was : List (List ℕ)) (get : ℕ → Option (List ℕ)) → H.tells heap.now was get → get hid ≡ Some x.now) }
    ensures why { IfErr result (λ stop. (was : List (List ℕ)) (get : ℕ → Option (List ℕ)) → H.tells heap.now was get → (x : List ℕ) → get hid ≡ Some x → NotFault stop) }
{
    match heap.item(hid) {
        Ok(Some(x)) => Ok(x),
        Ok(None) => Err(IndexStop::NoIndex),
        Err(stop) => Err(IndexStop::Heap(stop)),
    }
}

/// Adds an item.
pub fn add<H: HeapItems>(heap: &mut H, x: &[u8]) -> Result<u32, IndexStop<H::Stop>>
    requires { IsItem x.now }
    ensures adds { IfOk result (λ hid. (was : List (List ℕ)) (get : ℕ → Option (List ℕ)) → H.tells heap.old was get → AddsItem (H.tells heap.new was) get x.now hid) }
    ensures fits { IfOk result (λ hid. hid < 2 ^ 32) }
    ensures why { IfErr result NotFault }
{
    match heap.add(x) {
        Ok(hid) => Ok(hid),
        Err(stop) => Err(IndexStop::Heap(stop)),
    }
}

/// Adds a leaf, and gives the pair that names it.
pub fn add_leaf<H: HeapItems>(heap: &mut H, y: &[u8]) -> Result<Pair, IndexStop<H::Stop>>
    requires { IsItem y.now }
    ensures adds { IfOk result (λ p. (was : List (List ℕ)) (get : ℕ → Option (List ℕ)) → H.tells heap.old was get → (rs : List (ℕ × List ℕ)) → ordered 4 4 0 (2 ^ 32) y.now ≡ Some rs
        → AddsLeaf (H.tells heap.new was) get p rs) }
    ensures why { IfErr result NotFault }
{
    let child = add(heap, y)?;
    Ok(Pair {
        key: u32_at(y, 0),
        child,
    })
}

/// Adds an inner item above leaves, where it isn't too long.
pub fn add_inner<H: HeapItems>(heap: &mut H, y: &[u8]) -> Result<u32, IndexStop<H::Stop>>
    requires { 8 ≤ length y.now }
    ensures adds { IfOk result (λ hid. (was : List (List ℕ)) (get : ℕ → Option (List ℕ)) → H.tells heap.old was get → (ps recs : List (ℕ × List ℕ)) → whole 4 4 y.now ≡ Some ps
        → gather (tree get 4 4 0) ps ≡ Some recs → AddsInner (H.tells heap.new was) get hid recs) }
    ensures fits { IfOk result (λ hid. hid < 2 ^ 32) }
    ensures why { IfErr result NotFault }
{
    if y.len() > MOST {
        return Err(IndexStop::Anew);
    }
    add(heap, y)
}

/// The level and the root of an index.
#[derive(Clone, Copy, Debug)]
pub struct Top {
    pub level: u8,
    pub root: u32,
}

/// What an index's header gives ([MS-PST] 2.3.2.1).
pub fn top_of<H: HeapItems>(heap: &H, header: u32) -> Result<Top, IndexStop<H::Stop>>
    ensures found { IfOk result (λ top. (was : List (List ℕ)) (get : ℕ → Option (List ℕ)) → H.tells heap.now was get → (recs : List (ℕ × List ℕ)) → bth get header 4 4 ≡ Some recs
        → HasTop get top.level top.root recs) }
    ensures why { IfErr result (λ stop. (was : List (List ℕ)) (get : ℕ → Option (List ℕ)) → H.tells heap.now was get → (recs : List (ℕ × List ℕ)) → bth get header 4 4 ≡ Some recs → NotFault stop) }
{
    let x = item(heap, header)?;
    if x.len() < 8 {
        return Err(IndexStop::NoIndex);
    }
    Ok(Top {
        level: u8_at(x, 3),
        root: u32_at(x, 4),
    })
}

/// The header of an index.
fn header_bytes(level: u8, root: u32) -> [u8; 8]
    ensures value { result ≡ header_of 4 4 level root }
    ensures size { length result ≡ 8 }
{
    let r = root.to_le_bytes();
    [0xB5, 4, 4, level, r[0], r[1], r[2], r[3]]
}

/// Adds the header of an index that has a root.
pub fn add_header<H: HeapItems>(
    heap: &mut H,
    level: u8,
    root: u32,
) -> Result<u32, IndexStop<H::Stop>>
    ensures adds { IfOk result (λ hid. (was : List (List ℕ)) (get : ℕ → Option (List ℕ)) → H.tells heap.old was get → (recs : List (ℕ × List ℕ)) → root ≢ 0
        → root_of get 4 4 level root ≡ Some recs → HasIndex (H.tells heap.new was) get hid recs) }
    ensures why { IfErr result NotFault }
{
    add(heap, &header_bytes(level, root))
}
