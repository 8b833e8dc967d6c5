//! Looking entries up in a tree of a file.
ghost use Rattle.std.specs.Prelude.{◌≡◌, List, IfOk, IfErr};
ghost use Rattle.pst_outside.specs.Calls.{Untouched};
ghost use Rattle.file_blocks.specs.Blocks.{file_of};
ghost use Rattle.tree_edit.specs.Edits.{entry_with};
ghost use Rattle.tree_search.specs.Search.{first_from};
ghost use Rattle.file_pages.specs.Told.{Asks, Caches, HasTree, StopsUnless};

use crate::source::FilePages;
use btree_pages::Entry;
use page_cache::PageCache;
use pst_base::{Bref, MemOr, SourceStop};
use pst_outside::Outside;
use tree_edit::look_up;
use tree_search::find_from;

/// A tree of a file: the kind of its pages (80h for blocks, 81h for nodes), its root, and where the file ends.
#[derive(Clone, Copy, Debug, PartialEq, Eq)]
pub struct FileTree {
    pub kind: u8,
    pub root: Bref,
    pub eof: u64,
}

/// The entry with a key in the tree of a root.
fn entry_in<E: Entry, W: Outside>(
    root: Bref,
    key: u64,
    pages: &mut FilePages<'_, W>,
) -> Result<Option<E>, MemOr<SourceStop>>
    ensures names { (pages.new.world.ghost_name ≡ pages.old.world.ghost_name) × (pages.new.cache.ghost_name ≡ pages.old.cache.ghost_name) }
    ensures asks { Asks (W.view pages.old.world.now) (W.view pages.new.world.now) pages.old.eof pages.old.kind pages.old.cache.now pages.new.cache.now }
    ensures found { IfOk result (λ found. Caches (W.view pages.old.world.now) pages.old.eof pages.old.kind pages.old.cache.now → (es : List E)
        → HasTree E.rule E.size E.entry_of E.key (file_of (W.view pages.old.world.now).here) pages.old.eof pages.old.kind root es → found ≡ entry_with E.key key es) }
    ensures stops { IfErr result (StopsUnless (W.view pages.old.world.now) (W.view pages.new.world.now)
        (Caches (W.view pages.old.world.now) pages.old.eof pages.old.kind pages.old.cache.now × ((es : List E) × HasTree E.rule E.size E.entry_of E.key (file_of (W.view pages.old.world.now).here) pages.old.eof pages.old.kind root es))) }
{
    look_up(root, key, pages)
}

/// The first entry from a key on in the tree of a root.
fn first_in<E: Entry, W: Outside>(
    root: Bref,
    low: u64,
    pages: &mut FilePages<'_, W>,
) -> Result<Option<E>, MemOr<SourceStop>>
    ensures names { (pages.new.world.ghost_name ≡ pages.old.world.ghost_name) × (pages.new.cache.ghost_name ≡ pages.old.cache.ghost_name) }
    ensures asks { Asks (W.view pages.old.world.now) (W.view pages.new.world.now) pages.old.eof pages.old.kind pages.old.cache.now pages.new.cache.now }
    ensures found { IfOk result (λ found. Caches (W.view pages.old.world.now) pages.old.eof pages.old.kind pages.old.cache.now → (es : List E)
        → HasTree E.rule E.size E.entry_of E.key (file_of (W.view pages.old.world.now).here) pages.old.eof pages.old.kind root es → found ≡ first_from E.key low es) }
    ensures stops { IfErr result (StopsUnless (W.view pages.old.world.now) (W.view pages.new.world.now)
        (Caches (W.view pages.old.world.now) pages.old.eof pages.old.kind pages.old.cache.now × ((es : List E) × HasTree E.rule E.size E.entry_of E.key (file_of (W.view pages.old.world.now).here) pages.old.eof pages.old.kind root es))) }
{
    find_from(root, low, pages)
}

/// The entry with a key in a tree of a file; `None` where there is none.
///
/// `Failed` comes where the disk failed, `Changed` at a page that isn't there or isn't one of the tree, with two zeros for its numbers.
pub fn entry_at<E: Entry, W: Outside>(
    w: &mut W,
    cache: &mut PageCache,
    tree: FileTree,
    key: u64,
) -> Result<Option<E>, MemOr<SourceStop>>
    ensures found { IfOk result (λ found. Caches (W.view w.old) tree.eof tree.kind cache.old → (es : List E)
        → HasTree E.rule E.size E.entry_of E.key (file_of (W.view w.old).here) tree.eof tree.kind tree.root es → found ≡ entry_with E.key key es) }
    ensures stops { IfErr result (StopsUnless (W.view w.old) (W.view w.new)
        (Caches (W.view w.old) tree.eof tree.kind cache.old × ((es : List E) × HasTree E.rule E.size E.entry_of E.key (file_of (W.view w.old).here) tree.eof tree.kind tree.root es))) }
    ensures caches { Caches (W.view w.old) tree.eof tree.kind cache.old → Caches (W.view w.new) tree.eof tree.kind cache.new }
    ensures same { Untouched (W.view w.old) (W.view w.new) }
{
    let mut pages = FilePages {
        world: w,
        cache,
        eof: tree.eof,
        kind: tree.kind,
    };
    entry_in(tree.root, key, &mut pages)
}

/// The first entry of a tree of a file whose key isn't below a number; `None` where all are. It stops as `entry_at`.
pub fn entry_from<E: Entry, W: Outside>(
    w: &mut W,
    cache: &mut PageCache,
    tree: FileTree,
    low: u64,
) -> Result<Option<E>, MemOr<SourceStop>>
    ensures found { IfOk result (λ found. Caches (W.view w.old) tree.eof tree.kind cache.old → (es : List E)
        → HasTree E.rule E.size E.entry_of E.key (file_of (W.view w.old).here) tree.eof tree.kind tree.root es → found ≡ first_from E.key low es) }
    ensures stops { IfErr result (StopsUnless (W.view w.old) (W.view w.new)
        (Caches (W.view w.old) tree.eof tree.kind cache.old × ((es : List E) × HasTree E.rule E.size E.entry_of E.key (file_of (W.view w.old).here) tree.eof tree.kind tree.root es))) }
    ensures caches { Caches (W.view w.old) tree.eof tree.kind cache.old → Caches (W.view w.new) tree.eof tree.kind cache.new }
    ensures same { Untouched (W.view w.old) (W.view w.new) }
{
    let mut pages = FilePages {
        world: w,
        cache,
        eof: tree.eof,
        kind: tree.kind,
    };
    first_in(tree.root, low, &mut pages)
}
