//! Whether entries ascend by their keys.
ghost use Rattle.std.specs.Prelude.{◌≡◌, ◌↔◌, ◌^◌, IsTrue, map};
ghost use Rattle.tree_edit.specs.Shapes.{RiseIn};

use btree_pages::Entry;

/// Whether the keys ascend strictly.
pub(crate) fn are_rising<E: Entry>(entries: &[E]) -> bool
    ensures { IsTrue result ↔ RiseIn 0 (2 ^ 64) (map E.key entries.now) }
{
    let mut least = 0;
    for entry in entries {
        let key = u128::from(entry.key());
        if key < least {
            return false;
        }
        least = key + 1;
    }
    true
}
