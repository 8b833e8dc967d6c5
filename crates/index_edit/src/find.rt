//! Looking up a row.
ghost use Rattle.std.specs.Prelude.{◌≡◌, ℕ, List, Option, Some, IfOk, IfErr};
ghost use Rattle.bth_tree.specs.Records.{entry_of};
ghost use Rattle.bth_tree.specs.Tree.{bth, leaf as leaf_of, root as root_of};
ghost use Rattle.index_edit.specs.Adding.{NotFault};
ghost use Rattle.index_edit.specs.Rows.{as_number};

use crate::bytes::entry_in;
use crate::inner::place_in;
use crate::reach::{Top, item, top_of};
use crate::stop::IndexStop;
use heap_items::HeapItems;

/// The leaf to which a key belongs.
fn leaf_for<H: HeapItems>(heap: &H, top: Top, key: u32) -> Result<u32, IndexStop<H::Stop>>
    ensures found { IfOk result (λ leaf. (was : List (List ℕ)) (get : ℕ → Option (List ℕ)) → H.tells heap.now was get → (recs : List (ℕ × List ℕ)) → root_of get 4 4 top.level top.root ≡ Some recs
        → (rs : List (ℕ × List ℕ)) × (leaf_of get 4 4 leaf ≡ Some rs) × (entry_of key recs ≡ entry_of key rs)) }
    ensures why { IfErr result (λ stop. (was : List (List ℕ)) (get : ℕ → Option (List ℕ)) → H.tells heap.now was get → (recs : List (ℕ × List ℕ)) → root_of get 4 4 top.level top.root ≡ Some recs → NotFault stop) }
{
    let mut at = top.root;
    for _level in 0..top.level {
        match place_in(heap, at, key) {
            Ok(place) => {
                at = place.child;
            }
            Err(stop) => return Err(stop),
        }
    }
    Ok(at)
}

/// The entry of a key in the index under a heap id, if it has one; only the items on the way to it are looked at. `Heap` comes where the heap stopped, and `NoIndex` only where no row index stands there.
pub fn find_entry<H: HeapItems>(
    heap: &H,
    header: u32,
    key: u32,
) -> Result<Option<u32>, IndexStop<H::Stop>>
    ensures found { IfOk result (λ entry. (was : List (List ℕ)) (get : ℕ → Option (List ℕ)) → H.tells heap.now was get → (recs : List (ℕ × List ℕ)) → bth get header 4 4 ≡ Some recs
        → entry ≡ as_number (entry_of key recs)) }
    ensures why { IfErr result (λ stop. (was : List (List ℕ)) (get : ℕ → Option (List ℕ)) → H.tells heap.now was get → (recs : List (ℕ × List ℕ)) → bth get header 4 4 ≡ Some recs → NotFault stop) }
{
    let top = match top_of(heap, header) {
        Ok(top) => top,
        Err(stop) => return Err(stop),
    };
    if top.root == 0 {
        return Ok(None);
    }
    let leaf = match leaf_for(heap, top, key) {
        Ok(leaf) => leaf,
        Err(stop) => return Err(stop),
    };
    match item(heap, leaf) {
        Ok(x) => Ok(entry_in(x, key)),
        Err(stop) => Err(stop),
    }
}
