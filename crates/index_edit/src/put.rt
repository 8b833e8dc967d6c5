//! Putting a record.
ghost use Rattle.std.specs.Prelude.{◌≡◌, ◌≢◌, ◌≤◌, ◌<◌, ◌^◌, ◌+◌, ◌*◌, ◌∷◌, [], ℕ, List, Option, Some, length, IfOk, IfErr};
ghost use Rattle.byteorder.specs.Endian.{little_bytes};
ghost use Rattle.mapi_values.specs.Keyed.{put_key};
ghost use Rattle.bth_tree.specs.Tree.{bth, gather, leaf as leaf_of, root as root_of, tree};
ghost use Rattle.index_edit.specs.Adding.{AddsInner, AddsPairs, HasIndex, HasTop, NotFault};
ghost use Rattle.index_edit.specs.Edits.{FitLeaves, HoldLeaves};
ghost use Rattle.index_edit.specs.Pairs.{MayBeRoot, pairs_of};
ghost use Rattle.index_edit.specs.Rows.{key_of};

use crate::bytes::row;
use crate::inner::{add_changed, place_in};
use crate::leaf::{MOST, NewLeaves, new_leaves};
use crate::pairs::{Pair, Pairs, spell};
use crate::reach::{Top, add_header, add_inner, add_leaf, item, top_of};
use crate::stop::IndexStop;
use heap_items::HeapItems;
use std::alloc::Global;

/// Adds the leaves that stand in place of one, and gives the pairs that name them.
fn add_leaves<H: HeapItems>(
    heap: &mut H,
    leaf: u32,
    key: u32,
    entry: u32,
    leaves: &NewLeaves,
) -> Result<Pairs, IndexStop<H::Stop>>
    requires { FitLeaves leaves.now }
    ensures adds { IfOk result (λ ps. (was : List (List ℕ)) (get : ℕ → Option (List ℕ)) → H.tells heap.old was get → (rs : List (ℕ × List ℕ)) → leaf_of get 4 4 leaf ≡ Some rs
        → HoldLeaves (key, little_bytes 4 entry) rs leaves.now → AddsPairs (H.tells heap.new was) get ps (put_key key_of (key, little_bytes 4 entry) rs)) }
    ensures why { IfErr result NotFault }
{
    match leaves {
        NewLeaves::One(y) => {
            let only = add_leaf(heap, y.as_slice())?;
            Ok(Pairs::Single(only))
        }
        NewLeaves::Behind(first) => {
            let key_before = *first;
            let behind = add_leaf(heap, &row(key, entry))?;
            let before = Pair {
                key: key_before,
                child: leaf,
            };
            Ok(Pairs::Double(before, behind))
        }
        NewLeaves::Halves(y, z) => {
            let front = add_leaf(heap, y.as_slice())?;
            let back = add_leaf(heap, z.as_slice())?;
            Ok(Pairs::Double(front, back))
        }
    }
}

/// Makes the leaves that stand in place of one once a record is put.
fn leaves_of<H: HeapItems>(
    alloc: Global,
    heap: &H,
    leaf: u32,
    key: u32,
    entry: u32,
) -> Result<NewLeaves, IndexStop<H::Stop>>
    ensures fit { IfOk result FitLeaves }
    ensures hold { IfOk result (λ leaves. (was : List (List ℕ)) (get : ℕ → Option (List ℕ)) → H.tells heap.now was get → (rs : List (ℕ × List ℕ)) → leaf_of get 4 4 leaf ≡ Some rs
        → HoldLeaves (key, little_bytes 4 entry) rs leaves) }
    ensures why { IfErr result (λ stop. (was : List (List ℕ)) (get : ℕ → Option (List ℕ)) → H.tells heap.now was get → (rs : List (ℕ × List ℕ)) → leaf_of get 4 4 leaf ≡ Some rs → NotFault stop) }
{
    let x = item(heap, leaf)?;
    if x.len() > MOST {
        return Err(IndexStop::Anew);
    }
    match new_leaves(alloc, x, key, entry) {
        Ok(leaves) => Ok(leaves),
        Err(_) => Err(IndexStop::Memory),
    }
}

/// Puts a record into a leaf, and gives the pairs that name the leaves in its place.
fn put_leaf<H: HeapItems>(
    alloc: Global,
    heap: &mut H,
    leaf: u32,
    key: u32,
    entry: u32,
) -> Result<Pairs, IndexStop<H::Stop>>
    ensures adds { IfOk result (λ ps. (was : List (List ℕ)) (get : ℕ → Option (List ℕ)) → H.tells heap.old was get → (rs : List (ℕ × List ℕ)) → leaf_of get 4 4 leaf ≡ Some rs
        → AddsPairs (H.tells heap.new was) get ps (put_key key_of (key, little_bytes 4 entry) rs)) }
    ensures why { IfErr result (λ stop. (was : List (List ℕ)) (get : ℕ → Option (List ℕ)) → H.tells heap.old was get → (rs : List (ℕ × List ℕ)) → leaf_of get 4 4 leaf ≡ Some rs → NotFault stop) }
{
    let leaves = match leaves_of(alloc, heap, leaf, key, entry) {
        Ok(leaves) => leaves,
        Err(stop) => return Err(stop),
    };
    match add_leaves(heap, leaf, key, entry, &leaves) {
        Ok(pairs) => Ok(pairs),
        Err(stop) => Err(stop),
    }
}

/// The first index: one leaf of one record.
fn put_first<H: HeapItems>(heap: &mut H, key: u32, entry: u32) -> Result<u32, IndexStop<H::Stop>>
    ensures adds { IfOk result (λ header. (was : List (List ℕ)) (get : ℕ → Option (List ℕ)) → H.tells heap.old was get → HasIndex (H.tells heap.new was) get header ((key, little_bytes 4 entry) ∷ [])) }
    ensures why { IfErr result NotFault }
{
    let only = add_leaf(heap, &row(key, entry))?;
    add_header(heap, 0, only.child)
}

/// Adds what names the leaves of an index that had one: its header, with an inner item below it where there are two.
fn add_top<H: HeapItems>(
    alloc: Global,
    heap: &mut H,
    pairs: Pairs,
) -> Result<u32, IndexStop<H::Stop>>
    ensures adds { IfOk result (λ header. (was : List (List ℕ)) (get : ℕ → Option (List ℕ)) → H.tells heap.old was get → (recs : List (ℕ × List ℕ)) → gather (tree get 4 4 0) (pairs_of pairs) ≡ Some recs
        → 0 < length recs → MayBeRoot pairs → HasIndex (H.tells heap.new was) get header recs) }
    ensures why { IfErr result NotFault }
{
    if let Pairs::Single(only) = pairs {
        return add_header(heap, 0, only.child);
    }
    let inner = spell(alloc, pairs)?;
    let root = add_inner(heap, inner.as_slice())?;
    add_header(heap, 1, root)
}

/// Puts a record into an index of one leaf.
fn put_root<H: HeapItems>(
    alloc: Global,
    heap: &mut H,
    leaf: u32,
    key: u32,
    entry: u32,
) -> Result<u32, IndexStop<H::Stop>>
    ensures adds { IfOk result (λ header. (was : List (List ℕ)) (get : ℕ → Option (List ℕ)) → H.tells heap.old was get → (recs : List (ℕ × List ℕ)) → leaf_of get 4 4 leaf ≡ Some recs
        → HasIndex (H.tells heap.new was) get header (put_key key_of (key, little_bytes 4 entry) recs)) }
    ensures why { IfErr result (λ stop. (was : List (List ℕ)) (get : ℕ → Option (List ℕ)) → H.tells heap.old was get → (recs : List (ℕ × List ℕ)) → leaf_of get 4 4 leaf ≡ Some recs → NotFault stop) }
{
    let pairs = match put_leaf(alloc, heap, leaf, key, entry) {
        Ok(pairs) => pairs,
        Err(stop) => return Err(stop),
    };
    match add_top(alloc, heap, pairs) {
        Ok(header) => Ok(header),
        Err(stop) => Err(stop),
    }
}

/// Puts a record into a leaf below an inner item, and gives the heap id of the inner item in its place.
fn put_below<H: HeapItems>(
    alloc: Global,
    heap: &mut H,
    inner: u32,
    key: u32,
    entry: u32,
) -> Result<u32, IndexStop<H::Stop>>
    ensures adds { IfOk result (λ hid. (was : List (List ℕ)) (get : ℕ → Option (List ℕ)) → H.tells heap.old was get → (recs : List (ℕ × List ℕ)) → tree get 4 4 1 inner ≡ Some recs
        → AddsInner (H.tells heap.new was) get hid (put_key key_of (key, little_bytes 4 entry) recs)) }
    ensures why { IfErr result (λ stop. (was : List (List ℕ)) (get : ℕ → Option (List ℕ)) → H.tells heap.old was get → (recs : List (ℕ × List ℕ)) → tree get 4 4 1 inner ≡ Some recs → NotFault stop) }
{
    let place = match place_in(heap, inner, key) {
        Ok(place) => place,
        Err(stop) => return Err(stop),
    };
    let pairs = match put_leaf(alloc, heap, place.child, key, entry) {
        Ok(pairs) => pairs,
        Err(stop) => return Err(stop),
    };
    let bytes = spell(alloc, pairs)?;
    match add_changed(alloc, heap, inner, place.index, bytes.as_slice()) {
        Ok(hid) => Ok(hid),
        Err(stop) => Err(stop),
    }
}

/// Puts a record into an index of two levels.
fn put_two<H: HeapItems>(
    alloc: Global,
    heap: &mut H,
    inner: u32,
    key: u32,
    entry: u32,
) -> Result<u32, IndexStop<H::Stop>>
    ensures adds { IfOk result (λ header. (was : List (List ℕ)) (get : ℕ → Option (List ℕ)) → H.tells heap.old was get → (recs : List (ℕ × List ℕ)) → tree get 4 4 1 inner ≡ Some recs
        → HasIndex (H.tells heap.new was) get header (put_key key_of (key, little_bytes 4 entry) recs)) }
    ensures why { IfErr result (λ stop. (was : List (List ℕ)) (get : ℕ → Option (List ℕ)) → H.tells heap.old was get → (recs : List (ℕ × List ℕ)) → tree get 4 4 1 inner ≡ Some recs → NotFault stop) }
{
    let root = match put_below(alloc, heap, inner, key, entry) {
        Ok(root) => root,
        Err(stop) => return Err(stop),
    };
    match add_header(heap, 1, root) {
        Ok(header) => Ok(header),
        Err(stop) => Err(stop),
    }
}

/// Puts a record into an index with this top.
fn put_top<H: HeapItems>(
    alloc: Global,
    heap: &mut H,
    top: Top,
    key: u32,
    entry: u32,
) -> Result<u32, IndexStop<H::Stop>>
    ensures adds { IfOk result (λ header. (was : List (List ℕ)) (get : ℕ → Option (List ℕ)) → H.tells heap.old was get → (recs : List (ℕ × List ℕ)) → HasTop get top.level top.root recs
        → HasIndex (H.tells heap.new was) get header (put_key key_of (key, little_bytes 4 entry) recs)) }
    ensures why { IfErr result (λ stop. (was : List (List ℕ)) (get : ℕ → Option (List ℕ)) → H.tells heap.old was get → (recs : List (ℕ × List ℕ)) → HasTop get top.level top.root recs → NotFault stop) }
{
    if top.root == 0 {
        return put_first(heap, key, entry);
    }
    if top.level == 0 {
        return put_root(alloc, heap, top.root, key, entry);
    }
    if top.level == 1 {
        return put_two(alloc, heap, top.root, key, entry);
    }
    Err(IndexStop::Anew)
}

/// Puts a record into the index under a heap id, in place of the one with its key if there is one, and gives the heap id of the index then. What was added is a leaf or two, an inner item where there are two levels, and a header; the old index stays as it is.
///
/// `Heap` and `Memory` come where the heap stopped or memory ran out, `Anew` where the index has more than two levels or an item would be longer than 3,580 bytes, and `NoIndex` only where no row index stands there.
pub fn put_record<H: HeapItems>(
    alloc: Global,
    heap: &mut H,
    header: u32,
    key: u32,
    entry: u32,
) -> Result<u32, IndexStop<H::Stop>>
    ensures put { IfOk result (λ new. (was : List (List ℕ)) (get : ℕ → Option (List ℕ)) → H.tells heap.old was get → (recs : List (ℕ × List ℕ)) → bth get header 4 4 ≡ Some recs
        → HasIndex (H.tells heap.new was) get new (put_key key_of (key, little_bytes 4 entry) recs)) }
    ensures why { IfErr result (λ stop. (was : List (List ℕ)) (get : ℕ → Option (List ℕ)) → H.tells heap.old was get → (recs : List (ℕ × List ℕ)) → bth get header 4 4 ≡ Some recs → NotFault stop) }
{
    match top_of(heap, header) {
        Ok(top) => put_top(alloc, heap, top, key, entry),
        Err(stop) => Err(stop),
    }
}
