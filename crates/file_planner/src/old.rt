//! The entries of old blocks whose numbers of references change.
ghost use Rattle.std.specs.Prelude.{◌≡◌, ◌++◌, ◌∷◌, [], List, OnOk, IfOk, IfErr};
ghost use Rattle.btree_pages.specs.declared.entry.BlockEntry.{BlockEntry as Entries};
ghost use Rattle.btree_pages.specs.Entries.{block_of};
ghost use Rattle.file_blocks.specs.Blocks.{entry_key, file_of};
ghost use Rattle.file_layout.specs.Nodes.{place_of};
ghost use Rattle.file_pages.specs.Told.{Caches, HasTree, StopsUnless};
ghost use Rattle.pst_base.specs.Ids.{key_of};
ghost use Rattle.pst_outside.specs.Calls.{Untouched};
ghost use Rattle.plan_drawing.specs.Recounts.{edit_of, left_places, place_left, recounted, recounts};

use block_frame::disk_size;
use btree_pages::BlockEntry;
use file_pages::{FileTree, entry_at};
use page_cache::PageCache;
use pst_base::{MemOr, Place, SourceStop};
use pst_outside::Outside;
use ref_counts::RefChange;
use std::alloc::{AllocError, Global};

/// Edits of old blocks' entries, and where the blocks stand that are to go.
#[derive(Drop)]
pub(crate) struct OldEdits {
    pub(crate) edits: Vec<(u64, Option<BlockEntry>)>,
    pub(crate) left: Vec<Place>,
}

/// The entry after a change of its number of references, of which it stores one more ([MS-PST] 2.2.2.7.7.3), or none where nothing refers to the block.
fn recounted(entry: BlockEntry, number: u64) -> Option<BlockEntry>
    ensures { result ≡ recounted entry number }
{
    if number == 0 {
        return None;
    }
    Some(BlockEntry {
        at: entry.at,
        cb: entry.cb,
        refs: number.saturating_add(1).min(0xffff) as u16,
    })
}

/// Where a block of an entry stands. One that is too long for a block is answered as want of memory.
fn place_of(entry: BlockEntry) -> Result<Place, AllocError>
    ensures { IfOk result (λ place. place ≡ place_of entry) }
{
    if entry.cb > 8176 {
        return Err(AllocError);
    }
    Ok(Place {
        ib: entry.at.ib,
        len: disk_size(entry.cb) as u64,
    })
}

/// Adds the edit of an old entry, if it is there.
fn add_edit(
    old: &mut OldEdits,
    entry: Option<BlockEntry>,
    change: RefChange,
) -> Result<(), AllocError>
    ensures edits { OnOk result (old.new.edits.items ≡ old.old.edits.items ++ edit_of entry change) }
    ensures left { OnOk result (old.new.left.items ≡ old.old.left.items ++ place_left entry change) }
{
    let Some(entry) = entry else {
        return Ok(());
    };
    old.edits
        .push((change.key, recounted(entry, change.after)))?;
    if change.after == 0 {
        let place = place_of(entry)?;
        old.left.push(place)?;
    }
    Ok(())
}

/// Adds the edit of one change, if its block is an old one, by the block tree of a file.
fn edit_change<W: Outside>(
    w: &mut W,
    cache: &mut PageCache,
    tree: FileTree,
    next: u64,
    change: RefChange,
    old: &mut OldEdits,
) -> Result<(), MemOr<SourceStop>>
    ensures made { OnOk result (Caches (W.view w.old) tree.eof tree.kind cache.old → (es : List Entries)
        → HasTree key_of 24 block_of entry_key (file_of (W.view w.old).here) tree.eof tree.kind tree.root es
        → (old.new.edits.items ≡ old.old.edits.items ++ recounts es next (change ∷ [])) × (old.new.left.items ≡ old.old.left.items ++ left_places es next (change ∷ []))) }
    ensures stops { IfErr result (StopsUnless (W.view w.old) (W.view w.new)
        (Caches (W.view w.old) tree.eof tree.kind cache.old × ((es : List Entries) × HasTree key_of 24 block_of entry_key (file_of (W.view w.old).here) tree.eof tree.kind tree.root es))) }
    ensures caches { Caches (W.view w.old) tree.eof tree.kind cache.old → Caches (W.view w.new) tree.eof tree.kind cache.new }
    ensures same { Untouched (W.view w.old) (W.view w.new) }
{
    if change.key >= next {
        return Ok(());
    }
    match entry_at::<BlockEntry, W>(w, cache, tree, change.key) {
        Ok(entry) => {
            add_edit(old, entry, change)?;
            Ok(())
        }
        Err(stop) => Err(stop),
    }
}

/// The edits of the blocks with keys below `next` whose numbers of references change, by the block tree of a file: a block to which nothing refers any more is to go.
pub(crate) fn old_edits<W: Outside>(
    alloc: Global,
    w: &mut W,
    cache: &mut PageCache,
    tree: FileTree,
    next: u64,
    changes: &[RefChange],
) -> Result<OldEdits, MemOr<SourceStop>>
    ensures edits { IfOk result (λ old. Caches (W.view w.old) tree.eof tree.kind cache.old → (es : List Entries)
        → HasTree key_of 24 block_of entry_key (file_of (W.view w.old).here) tree.eof tree.kind tree.root es
        → (old.edits.items ≡ recounts es next changes.now) × (old.left.items ≡ left_places es next changes.now)) }
    ensures stops { IfErr result (StopsUnless (W.view w.old) (W.view w.new)
        (Caches (W.view w.old) tree.eof tree.kind cache.old × ((es : List Entries) × HasTree key_of 24 block_of entry_key (file_of (W.view w.old).here) tree.eof tree.kind tree.root es))) }
    ensures caches { Caches (W.view w.old) tree.eof tree.kind cache.old → Caches (W.view w.new) tree.eof tree.kind cache.new }
    ensures same { Untouched (W.view w.old) (W.view w.new) }
{
    let mut old = OldEdits {
        edits: Vec::new(alloc),
        left: Vec::new(alloc),
    };
    for change in changes {
        match edit_change(w, cache, tree, next, *change, &mut old) {
            Ok(()) => (),
            Err(stop) => return Err(stop),
        }
    }
    Ok(old)
}
