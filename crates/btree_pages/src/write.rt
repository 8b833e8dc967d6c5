//! Writing a tree page.
ghost use Rattle.std.specs.Prelude.{◌≡◌, ◌≤◌, ◌<◌, ◌*◌, true, Ok, map, length};
ghost use Rattle.std.specs.List.{All};
ghost use Rattle.btree_pages.specs.Entries.{inner_bytes, InnerFits};
ghost use Rattle.btree_pages.specs.Pages.{ascend, page_of, with_head, page_bytes};

use crate::entry::Entry;
use crate::inner::Inner;
use crate::page::ENTRIES;
use pst_base::put_u8;

/// The content of a leaf with these entries, which ascend strictly by key. Each of them fits its bytes, so it reads back as itself.
pub fn write_leaf<E: Entry>(entries: &[E]) -> [u8; 496]
    requires few { length entries.now * E.size ≤ 488 }
    requires ascend { ascend (map E.key entries.now) ≡ true }
    ensures bytes { result ≡ page_bytes E.size 0 (map E.bytes entries.now) }
    ensures reads_back { page_of E.rule E.size result ≡ Ok (record { level = 0; entries = map E.bytes entries.now }) }
    ensures fits { All E.fits entries.now }
{
    let mut page = [0; 496];
    put_head(&mut page, entries.len(), E::size(), 0);
    for (i, entry) in entries.iter().enumerate() {
        entry.put(&mut page, i * E::size());
    }
    page
}

/// The content of an inner page of a level from 1 to 7 with these entries, whose keys ascend strictly by the rule of the tree whose leaves have entries `E`.
pub fn write_inner<E: Entry>(level: u8, entries: &[Inner]) -> [u8; 496]
    requires low { 1 ≤ level }
    requires high { level ≤ 7 }
    requires few { length entries.now ≤ 20 }
    requires ascend { ascend (map (λ e. E.rule e.key) entries.now) ≡ true }
    ensures bytes { result ≡ page_bytes 24 level (map inner_bytes entries.now) }
    ensures reads_back { page_of E.rule E.size result ≡ Ok (record { level = level; entries = map inner_bytes entries.now }) }
    ensures fits { All InnerFits entries.now }
{
    let mut page = [0; 496];
    put_head(&mut page, entries.len(), 24, level);
    for (i, entry) in entries.iter().enumerate() {
        entry.put(&mut page, i * 24);
    }
    page
}

/// Writes what a page says of itself: how many entries it has, how many it may have, their size, and its level.
#[tactic(auto, unfolding(crate::specs::Pages::with_head))]
fn put_head(page: &mut [u8], count: usize, size: usize, level: u8)
    requires page { length page.old ≡ 496 }
    requires low { 24 ≤ size }
    requires high { size ≤ 32 }
    requires few { count * size ≤ 488 }
    ensures { page.new ≡ with_head count size level page.old }
{
    put_u8(page, 488, count as u8);
    put_u8(page, 489, (ENTRIES / size) as u8);
    put_u8(page, 490, size as u8);
    put_u8(page, 491, level);
}
