//! The pages of the two trees: where each must stand, and what it owes to its parent.
ghost use Rattle.std.specs.Prelude.{◌≡◌, ◌≤◌, ◌<◌, ◌+◌, ◌-◌, [], length, take, drop, slice_index_or, IfOk, OnErr};
ghost use Rattle.pst_outside.specs.Calls.{Rose, Untouched};
ghost use Rattle.btree_pages.specs.Pages.{keys, key_in};
ghost use Rattle.file_layout.specs.Trees.{in_span, owed, sooner, page_in, framed, child_of, file_of};

use alloc_map::page_frame::PageView;
use btree_pages::{Entry, TreePage};
use pst_base::{Bref, PageFault, u8_at, u64_at};
use pst_outside::{Failed, Outside, Part, read_part};

/// A place for a page in a tree: the page that is named there, and what it owes to its parent. A root has no `level`: it may have any up to 7. `low` and `high` are the least and the greatest key that the page may have.
#[derive(Clone, Copy, Debug, PartialEq, Eq)]
pub struct Seat {
    pub at: Bref,
    pub level: Option<u8>,
    pub low: u64,
    pub high: u64,
}

/// The bytes of the page at a place. Behind an open gate only the header lies elsewhere than in Main.
pub(crate) fn read_page<W: Outside>(w: &mut W, ib: u64) -> Result<[u8; 512], Failed>
    requires low { 0x4400 ≤ ib }
    requires within { (W.view w.old).tells → ib + 512 ≤ length (W.view w.old).here.main }
    ensures bytes { IfOk result (λ b. (W.view w.new).tells → b ≡ take 512 (drop ib (file_of (W.view w.old).here))) }
    ensures cause { OnErr result (Rose (W.view w.old).disk_faults (W.view w.new).disk_faults) }
    ensures same { Untouched (W.view w.old) (W.view w.new) }
{
    let mut bytes = [0; 512];
    read_part(w, Part::Main, ib, &mut bytes)?;
    Ok(bytes)
}

/// The page that the bytes are in a seat of a tree with pages of this kind, or its first fault.
#[tactic(auto, unfolding(crate::specs::Trees::framed))]
pub(crate) fn tree_page<'a, E: Entry>(
    bytes: &'a [u8; 512],
    kind: u8,
    seat: Seat,
) -> Result<TreePage<'a, E>, PageFault>
    ensures { result ≡ framed kind E.rule E.size seat bytes.now }
{
    match PageView::read(bytes, kind, seat.at) {
        Ok(view) => page_in(view.body(), seat),
        Err(fault) => Err(fault),
    }
}

/// The page that a content is in a seat, or its first fault.
fn page_in<'a, E: Entry>(body: &'a [u8], seat: Seat) -> Result<TreePage<'a, E>, PageFault>
    requires { length body.now ≡ 496 }
    ensures { result ≡ page_in E.rule E.size seat body.now }
{
    let page = match TreePage::read(body) {
        Ok(page) => page,
        Err(fault) => return Err(sooner(body, seat.level, fault)),
    };
    if let Some(fault) = owed(body, seat.level) {
        return Err(fault);
    }
    if !in_span(&page, seat.low, seat.high) {
        return Err(PageFault::Key);
    }
    Ok(page)
}

/// The first fault of a content in a seat, where it has this one in any tree.
fn sooner(body: &[u8], wanted: Option<u8>, fault: PageFault) -> PageFault
    requires { length body.now ≡ 496 }
    ensures { result ≡ sooner fault (owed wanted body.now) }
{
    match (fault, owed(body, wanted)) {
        (PageFault::Count, _) | (_, None) => fault,
        (_, Some(owed)) => owed,
    }
}

/// The first fault of a content as a child of a parent that wants this level, but for its keys.
fn owed(body: &[u8], wanted: Option<u8>) -> Option<PageFault>
    requires { length body.now ≡ 496 }
    ensures { result ≡ owed wanted body.now }
{
    let wanted = wanted?;
    if u8_at(body, 488) == 0 {
        return Some(PageFault::Count);
    }
    if u8_at(body, 491) != wanted {
        return Some(PageFault::Level);
    }
    None
}

/// Whether each key of a page is one from `low` to `high`.
fn in_span<E: Entry>(page: &TreePage<E>, low: u64, high: u64) -> bool
    ensures { result ≡ in_span low high (keys E.rule page.now.entries) }
{
    for i in 0..page.count() {
        let key = key_at(page, i);
        if key < low || high < key {
            return false;
        }
    }
    true
}

/// The key of an entry.
fn key_at<E: Entry>(page: &TreePage<E>, i: usize) -> u64
    requires { i < length page.now.entries }
    ensures { result ≡ key_in E.rule (slice_index_or page.now.entries i []) }
{
    let size = if page.level() == 0 { E::size() } else { 24 };
    E::rule(u64_at(&page.entry(i)[..size], 0))
}

/// The seat that an entry of an inner page names, where `high` is the page's greatest key.
pub(crate) fn child<E: Entry>(page: &TreePage<E>, i: usize, high: u64) -> Seat
    requires inner { 1 ≤ page.now.level }
    requires within { i < length page.now.entries }
    ensures { result ≡ child_of E.rule (page.now.level - 1) high (slice_index_or page.now.entries i []) (drop (i + 1) page.now.entries) }
{
    let count = page.count();
    let entry = page.inner(i);
    let next = i + 1;
    Seat {
        at: entry.page,
        level: Some(page.level() - 1),
        low: E::rule(entry.key),
        high: if next < count {
            E::rule(page.inner(next).key).saturating_sub(1)
        } else {
            high
        },
    }
}
