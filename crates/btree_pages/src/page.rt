//! Reading a tree page.
ghost use Rattle.std.specs.Prelude.{◌≡◌, ◌≤◌, ◌<◌, ◌+◌, ◌*◌, IsTrue, Some, length, slice_get, slice_index, slice_index_or, []};
ghost use Rattle.pst_base.specs.Fields.{number_at};
ghost use Rattle.btree_pages.specs.Entries.{inner_of};
ghost use Rattle.btree_pages.specs.Pages.{Page, pieces, size_at, keys, ascend, is_counted, page_with, page_of, FindsLast};

use crate::entry::Entry;
use crate::inner::Inner;
use pst_base::{PageFault, part, u8_at, u64_at};
use std::marker::{Model, PhantomData};

/// How many bytes of a page's content its entries may take.
pub(crate) const ENTRIES: usize = 488;

/// A page of the tree whose leaves have entries `E`. Contracts see its level and the bytes of its entries.
#[derive(Drop)]
pub struct TreePage<'a, E: Entry> {
    body: &'a [u8],
    level: u8,
    size: usize,
    count: usize,
    entries: PhantomData<E>,
}

impl<'a, E: Entry> Model for TreePage<'a, E> {
    ghost use Rattle.std.specs.Prelude.{◌≡◌, ◌≤◌, ◌*◌, length, true};
    ghost use Rattle.btree_pages.specs.Pages.{Page, pieces, size_at, keys, ascend};

    ghost Value = { Page };

    ghost view = { λ p. record { level = p.level; entries = pieces p.size p.count p.body.now } };

    ghost invariant = { λ p. (length p.body.now ≡ 496) × (p.size ≡ size_at E.size p.level) × (24 ≤ p.size) × (p.count * p.size ≤ 488) × (p.level ≤ 7) × (ascend (keys E.rule (pieces p.size p.count p.body.now)) ≡ true) };
}

impl<'a, E: Entry> TreePage<'a, E> {
    /// Reads a page's content.
    ///
    /// The faults in the order in which they are looked for: `Count`, where the size of an entry isn't that of the level, or the entries pass byte 488; `Level`, where the level is above 7; `Key`, where the keys don't ascend strictly.
    #[tactic(auto, unfolding(crate::specs::Pages::page_of, crate::specs::Pages::page_with))]
    pub fn read(body: &'a [u8]) -> Result<TreePage<'a, E>, PageFault>
        requires { length body.now ≡ 496 }
        ensures { result ≡ page_of E.rule E.size body.now }
    {
        let level = u8_at(body, 491);
        let size = entry_size::<E>(level);
        if !is_counted(body, size) {
            return Err(PageFault::Count);
        }
        if level > 7 {
            return Err(PageFault::Level);
        }
        let count = usize::from(u8_at(body, 488));
        if !ascends::<E>(body, size, count) {
            return Err(PageFault::Key);
        }
        Ok(TreePage {
            body,
            level,
            size,
            count,
            entries: PhantomData,
        })
    }

    /// The level: 0 for a leaf.
    pub fn level(&self) -> u8
        ensures value { result ≡ self.now.level }
        ensures high { result ≤ 7 }
    {
        self.level
    }

    /// How many entries the page has.
    pub fn count(&self) -> usize
        ensures { result ≡ length self.now.entries }
    {
        self.count
    }

    /// The bytes of an entry: 24 in an inner page, and in a leaf as many as an entry of the tree has.
    pub fn entry(&self, i: usize) -> &'a [u8]
        requires { i < length self.now.entries }
        ensures value { slice_get self.now.entries i ≡ Some result.now }
        ensures size { length result.now ≡ size_at E.size self.now.level }
    {
        entry_at(self.body, self.size, self.count, i)
    }

    /// An entry of a leaf.
    pub fn leaf(&self, i: usize) -> E
        requires leaf { self.now.level ≡ 0 }
        requires within { i < length self.now.entries }
        ensures { result ≡ E.entry_of (slice_index_or self.now.entries i []) }
    {
        E::read(self.entry(i))
    }

    /// An entry of an inner page.
    pub fn inner(&self, i: usize) -> Inner
        requires inner { 1 ≤ self.now.level }
        requires within { i < length self.now.entries }
        ensures { result ≡ inner_of (slice_index_or self.now.entries i []) }
    {
        Inner::read(self.entry(i))
    }

    /// The place of the last entry whose key isn't above a key; `None` where all are above.
    pub fn find(&self, key: u64) -> Option<usize>
        ensures { FindsLast (keys E.rule self.now.entries) key result }
    {
        let mut low = 0;
        let mut high = self.count;
        while low < high {
            let middle = low + (high - low) / 2;
            if key_at::<E>(self.body, self.size, self.count, middle) <= key {
                low = middle + 1;
            } else {
                high = middle;
            }
        }
        low.checked_sub(1)
    }
}

/// How many bytes an entry of a page of this level has.
fn entry_size<E: Entry>(level: u8) -> usize
    ensures value { result ≡ size_at E.size level }
    ensures low { 24 ≤ result }
    ensures high { result ≤ 32 }
{
    if level == 0 { E::size() } else { 24 }
}

/// Whether a page says that its entries have this size, and they end before the page's own numbers.
#[tactic(auto, unfolding(crate::specs::Pages::is_counted))]
fn is_counted(body: &[u8], size: usize) -> bool
    requires body { length body.now ≡ 496 }
    requires size { size ≤ 32 }
    ensures exact { result ≡ is_counted size body.now }
    ensures within { IsTrue result → number_at 1 488 body.now * size ≤ 488 }
{
    usize::from(u8_at(body, 490)) == size && usize::from(u8_at(body, 488)) * size <= ENTRIES
}

/// The bytes of an entry of a page.
fn entry_at(body: &[u8], size: usize, count: usize, i: usize) -> &[u8]
    requires body { length body.now ≡ 496 }
    requires entries { count * size ≤ 488 }
    requires within { i < count }
    ensures value { slice_get (pieces size count body.now) i ≡ Some result.now }
    ensures size { length result.now ≡ size }
{
    part(body, i * size, size)
}

/// The key of an entry of a page.
fn key_at<E: Entry>(body: &[u8], size: usize, count: usize, i: usize) -> u64
    requires body { length body.now ≡ 496 }
    requires entries { count * size ≤ 488 }
    requires size { 24 ≤ size }
    requires within { i < count }
    ensures { result ≡ slice_index (keys E.rule (pieces size count body.now)) i }
{
    E::rule(u64_at(entry_at(body, size, count, i), 0))
}

/// Whether the keys of a page's entries ascend strictly.
fn ascends<E: Entry>(body: &[u8], size: usize, count: usize) -> bool
    requires body { length body.now ≡ 496 }
    requires entries { count * size ≤ 488 }
    requires size { 24 ≤ size }
    ensures { result ≡ ascend (keys E.rule (pieces size count body.now)) }
{
    if count == 0 {
        return true;
    }
    let mut last = key_at::<E>(body, size, count, 0);
    for i in 1..count {
        let key = key_at::<E>(body, size, count, i);
        if key <= last {
            return false;
        }
        last = key;
    }
    true
}
