//! A tree of a file after edits.
ghost use Rattle.std.specs.Prelude.{◌≡◌, ◌^◌, List, IfOk, IfErr};
ghost use Rattle.pst_outside.specs.Calls.{Untouched};
ghost use Rattle.file_blocks.specs.Blocks.{file_of};
ghost use Rattle.tree_edit.specs.Edits.{AreEdits};
ghost use Rattle.tree_edit.specs.Plans.{AreWritable};
ghost use Rattle.file_pages.specs.Told.{Asks, Caches, HasTree, PlansIn, StopsUnless};

use crate::search::FileTree;
use crate::source::FilePages;
use btree_pages::Entry;
use page_cache::PageCache;
use pst_base::{Bref, MemOr, SourceStop};
use pst_outside::Outside;
use std::alloc::Global;
use tree_change::change;
use tree_edit::Plan;

/// The tree of a root after edits.
fn change_in<E: Entry, W: Outside>(
    alloc: Global,
    root: Bref,
    edits: &[(u64, Option<E>)],
    pages: &mut FilePages<'_, W>,
) -> Result<Plan<E>, MemOr<SourceStop>>
    requires { AreEdits E.key 0 (2 ^ 64) edits.now }
    ensures names { (pages.new.world.ghost_name ≡ pages.old.world.ghost_name) × (pages.new.cache.ghost_name ≡ pages.old.cache.ghost_name) }
    ensures asks { Asks (W.view pages.old.world.now) (W.view pages.new.world.now) pages.old.eof pages.old.kind pages.old.cache.now pages.new.cache.now }
    ensures plan { IfOk result (λ plan. Caches (W.view pages.old.world.now) pages.old.eof pages.old.kind pages.old.cache.now
        → PlansIn E.rule E.size E.entry_of E.key (file_of (W.view pages.old.world.now).here) pages.old.eof pages.old.kind root edits.now plan.pages.items plan.freed.items plan.root) }
    ensures writable { IfOk result (λ plan. AreWritable E.key E.rule E.size plan.pages.items) }
    ensures stops { IfErr result (StopsUnless (W.view pages.old.world.now) (W.view pages.new.world.now)
        (Caches (W.view pages.old.world.now) pages.old.eof pages.old.kind pages.old.cache.now × ((es : List E) × HasTree E.rule E.size E.entry_of E.key (file_of (W.view pages.old.world.now).here) pages.old.eof pages.old.kind root es))) }
{
    change(alloc, root, edits, pages)
}

/// Plans a tree of a file after edits, whose keys ascend: new pages, the pages that it has no more, and the new root. An edit puts its entry in its key's place, or takes the entry there away. It writes nothing.
///
/// `Failed` comes where the disk failed, `Changed` at a page that isn't there or isn't one of the tree, with two zeros for its numbers. Memory is also wanted where even a packed tree would pass level 7.
pub fn change_at<E: Entry, W: Outside>(
    alloc: Global,
    w: &mut W,
    cache: &mut PageCache,
    tree: FileTree,
    edits: &[(u64, Option<E>)],
) -> Result<Plan<E>, MemOr<SourceStop>>
    requires { AreEdits E.key 0 (2 ^ 64) edits.now }
    ensures plan { IfOk result (λ plan. Caches (W.view w.old) tree.eof tree.kind cache.old
        → PlansIn E.rule E.size E.entry_of E.key (file_of (W.view w.old).here) tree.eof tree.kind tree.root edits.now plan.pages.items plan.freed.items plan.root) }
    ensures writable { IfOk result (λ plan. AreWritable E.key E.rule E.size plan.pages.items) }
    ensures stops { IfErr result (StopsUnless (W.view w.old) (W.view w.new)
        (Caches (W.view w.old) tree.eof tree.kind cache.old × ((es : List E) × HasTree E.rule E.size E.entry_of E.key (file_of (W.view w.old).here) tree.eof tree.kind tree.root es))) }
    ensures caches { Caches (W.view w.old) tree.eof tree.kind cache.old → Caches (W.view w.new) tree.eof tree.kind cache.new }
    ensures same { Untouched (W.view w.old) (W.view w.new) }
{
    let mut pages = FilePages {
        world: w,
        cache,
        eof: tree.eof,
        kind: tree.kind,
    };
    change_in(alloc, tree.root, edits, &mut pages)
}
