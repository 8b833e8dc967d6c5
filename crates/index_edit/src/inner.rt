//! Inner items of an index.
ghost use Rattle.std.specs.Prelude.{◌≡◌, ◌≤◌, ◌<◌, ◌^◌, ◌+◌, ◌*◌, ◌++◌, ◌∷◌, [], ℕ, suc, List, Option, Some, length, take, drop, IfOk, IfErr};
ghost use Rattle.bth_tree.specs.Records.{whole};
ghost use Rattle.bth_tree.specs.Tree.{gather, tree};
ghost use Rattle.index_edit.specs.Adding.{AddsInner, NotFault, Reaches};

use crate::bytes::{Place, ROW, place_of, spliced};
use crate::reach::{add_inner, item};
use crate::stop::IndexStop;
use heap_items::HeapItems;
use std::alloc::Global;

/// The place of the pair below which a key belongs.
pub fn place_in<H: HeapItems>(heap: &H, inner: u32, key: u32) -> Result<Place, IndexStop<H::Stop>>
    ensures found { IfOk result (λ place. (was : List (List ℕ)) (get : ℕ → Option (List ℕ)) → H.tells heap.now was get → (n : ℕ) (recs : List (ℕ × List ℕ)) → tree get 4 4 (suc n) inner ≡ Some recs
        → Reaches get n key inner recs place.index place.child) }
    ensures why { IfErr result (λ stop. (was : List (List ℕ)) (get : ℕ → Option (List ℕ)) → H.tells heap.now was get → (n : ℕ) (recs : List (ℕ × List ℕ)) → tree get 4 4 (suc n) inner ≡ Some recs → NotFault stop) }
{
    let x = item(heap, inner)?;
    match place_of(x, key) {
        Some(place) => Ok(place),
        None => Err(IndexStop::NoIndex),
    }
}

/// An inner item's bytes with those of other pairs in place of one.
fn changed<H: HeapItems>(
    alloc: Global,
    heap: &H,
    inner: u32,
    index: usize,
    pairs: &[u8],
) -> Result<Vec<u8>, IndexStop<H::Stop>>
    ensures some { IfOk result (λ y. 8 ≤ length y.items) }
    ensures changed { IfOk result (λ y. (was : List (List ℕ)) (get : ℕ → Option (List ℕ)) → H.tells heap.now was get → (x : List ℕ) → get inner ≡ Some x
        → y.items ≡ take (8 * index) x ++ (pairs.now ++ drop (8 * (index + 1)) x)) }
    ensures why { IfErr result (λ stop. (was : List (List ℕ)) (get : ℕ → Option (List ℕ)) → H.tells heap.now was get → (x : List ℕ) → get inner ≡ Some x → 8 * (index + 1) ≤ length x → NotFault stop) }
{
    let x = item(heap, inner)?;
    if x.len() / ROW <= index {
        return Err(IndexStop::NoIndex);
    }
    let y = spliced(alloc, x, index, index + 1, pairs)?;
    if y.len() < ROW {
        return Err(IndexStop::Anew);
    }
    Ok(y)
}

/// Adds an inner item with other pairs in place of one.
pub fn add_changed<H: HeapItems>(
    alloc: Global,
    heap: &mut H,
    inner: u32,
    index: usize,
    pairs: &[u8],
) -> Result<u32, IndexStop<H::Stop>>
    ensures adds { IfOk result (λ hid. (was : List (List ℕ)) (get : ℕ → Option (List ℕ)) → H.tells heap.old was get → (x : List ℕ) → get inner ≡ Some x → (ps recs : List (ℕ × List ℕ))
        → whole 4 4 (take (8 * index) x ++ (pairs.now ++ drop (8 * (index + 1)) x)) ≡ Some ps → gather (tree get 4 4 0) ps ≡ Some recs → AddsInner (H.tells heap.new was) get hid recs) }
    ensures fits { IfOk result (λ hid. hid < 2 ^ 32) }
    ensures why { IfErr result (λ stop. (was : List (List ℕ)) (get : ℕ → Option (List ℕ)) → H.tells heap.old was get → (x : List ℕ) → get inner ≡ Some x → 8 * (index + 1) ≤ length x → NotFault stop) }
{
    let y = changed(alloc, heap, inner, index, pairs)?;
    match add_inner(heap, y.as_slice()) {
        Ok(hid) => Ok(hid),
        Err(stop) => Err(stop),
    }
}
