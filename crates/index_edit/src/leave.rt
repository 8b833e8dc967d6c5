//! Leaving a record out.
ghost use Rattle.std.specs.Prelude.{◌≡◌, ◌≢◌, ◌≤◌, ◌<◌, ◌^◌, ◌+◌, ◌*◌, ◌∷◌, [], ℕ, List, Option, Some, None, length, IfOk, IfErr, IfSome};
ghost use Rattle.mapi_values.specs.Keyed.{drop_key};
ghost use Rattle.bth_tree.specs.Records.{entry_of, ordered, whole};
ghost use Rattle.bth_tree.specs.Tree.{bth, leaf as leaf_of, tree};
ghost use Rattle.index_edit.specs.Adding.{AddsInner, DropsInto, HasIndex, HasTop, NotFault, Reaches};
ghost use Rattle.index_edit.specs.Edits.{LeavesOut};
ghost use Rattle.index_edit.specs.Rows.{key_of};

use crate::bytes::{ROW, row};
use crate::inner::{add_changed, place_in};
use crate::leaf::{MOST, leaf_without};
use crate::reach::{Top, add_header, add_leaf, item, top_of};
use crate::stop::IndexStop;
use heap_items::HeapItems;
use std::alloc::Global;

/// A leaf's bytes without the record of a key; `None` where it has none.
fn left_of<H: HeapItems>(
    alloc: Global,
    heap: &H,
    leaf: u32,
    key: u32,
) -> Result<Option<Vec<u8>>, IndexStop<H::Stop>>
    ensures size { IfOk result (λ out. IfSome out (λ y. length y.items ≤ 3580)) }
    ensures out { IfOk result (λ out. (was : List (List ℕ)) (get : ℕ → Option (List ℕ)) → H.tells heap.now was get → (rs : List (ℕ × List ℕ)) → leaf_of get 4 4 leaf ≡ Some rs → LeavesOut key rs out) }
    ensures why { IfErr result (λ stop. (was : List (List ℕ)) (get : ℕ → Option (List ℕ)) → H.tells heap.now was get → (rs : List (ℕ × List ℕ)) → leaf_of get 4 4 leaf ≡ Some rs → NotFault stop) }
{
    let x = item(heap, leaf)?;
    if x.len() > MOST {
        return Err(IndexStop::Anew);
    }
    match leaf_without(alloc, x, key) {
        Ok(out) => Ok(out),
        Err(_) => Err(IndexStop::Memory),
    }
}

/// Adds the leaf of an index of one leaf, and its header.
fn add_alone<H: HeapItems>(heap: &mut H, y: &[u8]) -> Result<u32, IndexStop<H::Stop>>
    requires { length y.now ≤ 3580 }
    ensures adds { IfOk result (λ header. (was : List (List ℕ)) (get : ℕ → Option (List ℕ)) → H.tells heap.old was get → (rs : List (ℕ × List ℕ)) → ordered 4 4 0 (2 ^ 32) y.now ≡ Some rs
        → HasIndex (H.tells heap.new was) get header rs) }
    ensures why { IfErr result NotFault }
{
    if y.len() < ROW {
        return Err(IndexStop::Anew);
    }
    let only = add_leaf(heap, y)?;
    add_header(heap, 0, only.child)
}

/// Leaves a record out of an index of one leaf; `None` where no record has its key.
fn drop_root<H: HeapItems>(
    alloc: Global,
    heap: &mut H,
    leaf: u32,
    key: u32,
) -> Result<Option<u32>, IndexStop<H::Stop>>
    ensures drops { IfOk result (λ out. (was : List (List ℕ)) (get : ℕ → Option (List ℕ)) → H.tells heap.old was get → (recs : List (ℕ × List ℕ)) → leaf_of get 4 4 leaf ≡ Some recs
        → DropsInto (H.tells heap.new was) get key recs out) }
    ensures same { IfOk result (λ out. out ≡ None → heap.new ≡ heap.old) }
    ensures why { IfErr result (λ stop. (was : List (List ℕ)) (get : ℕ → Option (List ℕ)) → H.tells heap.old was get → (recs : List (ℕ × List ℕ)) → leaf_of get 4 4 leaf ≡ Some recs → NotFault stop) }
{
    match left_of(alloc, heap, leaf, key) {
        Ok(None) => Ok(None),
        Ok(Some(y)) => match add_alone(heap, y.as_slice()) {
            Ok(header) => Ok(Some(header)),
            Err(stop) => Err(stop),
        },
        Err(stop) => Err(stop),
    }
}

/// Adds a leaf with fewer records, and the inner item that names it; where none are left, an inner item without its pair.
fn relay<H: HeapItems>(
    alloc: Global,
    heap: &mut H,
    inner: u32,
    index: usize,
    y: &[u8],
) -> Result<u32, IndexStop<H::Stop>>
    requires { length y.now ≤ 3580 }
    ensures adds { IfOk result (λ hid. (was : List (List ℕ)) (get : ℕ → Option (List ℕ)) → H.tells heap.old was get → (key child : ℕ) (recs rs : List (ℕ × List ℕ)) → key < 2 ^ 32 → Reaches get 0 key inner recs index child
        → leaf_of get 4 4 child ≡ Some rs → whole 4 4 y.now ≡ Some (drop_key key_of key rs) → AddsInner (H.tells heap.new was) get hid (drop_key key_of key recs)) }
    ensures fits { IfOk result (λ hid. hid < 2 ^ 32) }
    ensures why { IfErr result (λ stop. (was : List (List ℕ)) (get : ℕ → Option (List ℕ)) → H.tells heap.old was get → (key child : ℕ) (recs rs : List (ℕ × List ℕ)) → key < 2 ^ 32 → Reaches get 0 key inner recs index child
        → leaf_of get 4 4 child ≡ Some rs → whole 4 4 y.now ≡ Some (drop_key key_of key rs) → NotFault stop) }
{
    if y.len() < ROW {
        return add_changed(alloc, heap, inner, index, &[]);
    }
    let only = add_leaf(heap, y)?;
    match add_changed(alloc, heap, inner, index, &row(only.key, only.child)) {
        Ok(hid) => Ok(hid),
        Err(stop) => Err(stop),
    }
}

/// Leaves a record out of an index of two levels; `None` where no record has its key.
fn drop_below<H: HeapItems>(
    alloc: Global,
    heap: &mut H,
    inner: u32,
    key: u32,
) -> Result<Option<u32>, IndexStop<H::Stop>>
    ensures drops { IfOk result (λ out. (was : List (List ℕ)) (get : ℕ → Option (List ℕ)) → H.tells heap.old was get → (recs : List (ℕ × List ℕ)) → tree get 4 4 1 inner ≡ Some recs
        → DropsInto (H.tells heap.new was) get key recs out) }
    ensures same { IfOk result (λ out. out ≡ None → heap.new ≡ heap.old) }
    ensures why { IfErr result (λ stop. (was : List (List ℕ)) (get : ℕ → Option (List ℕ)) → H.tells heap.old was get → (recs : List (ℕ × List ℕ)) → tree get 4 4 1 inner ≡ Some recs → NotFault stop) }
{
    let place = match place_in(heap, inner, key) {
        Ok(place) => place,
        Err(stop) => return Err(stop),
    };
    let y = match left_of(alloc, heap, place.child, key) {
        Ok(Some(y)) => y,
        Ok(None) => return Ok(None),
        Err(stop) => return Err(stop),
    };
    let root = match relay(alloc, heap, inner, place.index, y.as_slice()) {
        Ok(root) => root,
        Err(stop) => return Err(stop),
    };
    match add_header(heap, 1, root) {
        Ok(header) => Ok(Some(header)),
        Err(stop) => Err(stop),
    }
}

/// Leaves a record out of an index with this top; `None` where no record has its key.
fn drop_top<H: HeapItems>(
    alloc: Global,
    heap: &mut H,
    top: Top,
    key: u32,
) -> Result<Option<u32>, IndexStop<H::Stop>>
    ensures drops { IfOk result (λ out. (was : List (List ℕ)) (get : ℕ → Option (List ℕ)) → H.tells heap.old was get → (recs : List (ℕ × List ℕ)) → HasTop get top.level top.root recs
        → DropsInto (H.tells heap.new was) get key recs out) }
    ensures same { IfOk result (λ out. out ≡ None → heap.new ≡ heap.old) }
    ensures why { IfErr result (λ stop. (was : List (List ℕ)) (get : ℕ → Option (List ℕ)) → H.tells heap.old was get → (recs : List (ℕ × List ℕ)) → HasTop get top.level top.root recs → NotFault stop) }
{
    if top.root == 0 {
        return Ok(None);
    }
    if top.level == 0 {
        return drop_root(alloc, heap, top.root, key);
    }
    if top.level == 1 {
        return drop_below(alloc, heap, top.root, key);
    }
    Err(IndexStop::Anew)
}

/// Leaves the record of a key out of the index under a heap id, and gives the heap id of the index then. Where no record has the key nothing is added, and the index stays; else what was added is a leaf, an inner item where there are two levels, and a header, and the old index stays as it is.
///
/// `Heap` and `Memory` come where the heap stopped or memory ran out, `Anew` where the index has more than two levels, no record would be left, or an item is longer than 3,580 bytes, and `NoIndex` only where no row index stands there.
pub fn drop_record<H: HeapItems>(
    alloc: Global,
    heap: &mut H,
    header: u32,
    key: u32,
) -> Result<u32, IndexStop<H::Stop>>
    ensures dropped { IfOk result (λ new. (was : List (List ℕ)) (get : ℕ → Option (List ℕ)) → H.tells heap.old was get → (recs : List (ℕ × List ℕ)) → bth get header 4 4 ≡ Some recs
        → HasIndex (H.tells heap.new was) get new (drop_key key_of key recs)) }
    ensures same { IfOk result (λ new. (was : List (List ℕ)) (get : ℕ → Option (List ℕ)) → H.tells heap.old was get → (recs : List (ℕ × List ℕ)) → bth get header 4 4 ≡ Some recs
        → entry_of key recs ≡ None → (new ≡ header) × (heap.new ≡ heap.old)) }
    ensures why { IfErr result (λ stop. (was : List (List ℕ)) (get : ℕ → Option (List ℕ)) → H.tells heap.old was get → (recs : List (ℕ × List ℕ)) → bth get header 4 4 ≡ Some recs → NotFault stop) }
{
    let top = match top_of(heap, header) {
        Ok(top) => top,
        Err(stop) => return Err(stop),
    };
    match drop_top(alloc, heap, top, key) {
        Ok(Some(new)) => Ok(new),
        Ok(None) => Ok(header),
        Err(stop) => Err(stop),
    }
}
