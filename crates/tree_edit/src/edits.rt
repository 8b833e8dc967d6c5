//! Lists of edits.
ghost use Rattle.std.specs.Prelude.{◌^◌, IsTrue, ◌↔◌};
ghost use Rattle.tree_edit.specs.Edits.{AreEdits, Keyed};

use btree_pages::Entry;

/// Whether an entry that may be there has this key.
fn has_key<E: Entry>(entry: Option<E>, key: u64) -> bool
    ensures { IsTrue result ↔ Keyed E.key key entry }
{
    match entry {
        Some(entry) => entry.key() == key,
        None => true,
    }
}

/// Whether edits are in order, as a change of a tree wants them: their keys ascend strictly, and an entry that is put has its edit's key.
pub fn are_edits<E: Entry>(edits: &[(u64, Option<E>)]) -> bool
    ensures { IsTrue result ↔ AreEdits E.key 0 (2 ^ 64) edits.now }
{
    let mut least = 0u128;
    for i in 0..edits.len() {
        let (key, entry) = edits[i];
        if u128::from(key) < least {
            return false;
        }
        if !has_key(entry, key) {
            return false;
        }
        least = u128::from(key) + 1;
    }
    true
}
