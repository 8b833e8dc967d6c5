//! Pages of a tree.
ghost use Rattle.std.specs.Prelude.{◌≡◌, ◌≤◌, ◌*◌, ◌^◌, length, map};
ghost use Rattle.tree_edit.specs.Plans.{AreKeys};
ghost use Rattle.tree_edit.specs.Shapes.{RiseIn, inner, leaf};
ghost use Rattle.packed_tree.specs.Shown.{ShowsPage, keys, kids};

use btree_pages::{Entry, Inner, write_inner, write_leaf};
use page_frame::seal;
use pst_base::Bref;

/// A leaf with these entries, sealed for its place. `kind` is that of the tree's pages ([MS-PST] 2.2.2.7.1).
pub fn leaf_page<E: Entry>(kind: u8, at: Bref, entries: &[E]) -> [u8; 512]
    requires few { length entries.now * E.size ≤ 488 }
    requires rises { RiseIn 0 (2 ^ 64) (map E.key entries.now) }
    ensures { ShowsPage E.rule E.size E.entry_of kind (leaf entries.now) at result }
{
    seal(&write_leaf(entries), kind, at)
}

/// A page of a level from 1 to 7 that names these children, sealed for its place, in the tree whose leaves have entries `E`.
pub fn inner_page<E: Entry>(kind: u8, level: u8, at: Bref, children: &[Inner]) -> [u8; 512]
    requires low { 1 ≤ level }
    requires high { level ≤ 7 }
    requires few { length children.now ≤ 20 }
    requires rises { RiseIn 0 (2 ^ 64) (keys children.now) }
    requires keys { AreKeys E.rule (keys children.now) }
    ensures { ShowsPage E.rule E.size E.entry_of kind (inner level (kids children.now)) at result }
{
    seal(&write_inner::<E>(level, children), kind, at)
}
