//! One page of the file, in its place in a tree.
ghost use Rattle.std.specs.Prelude.{◌≡◌, ◌≤◌, ◌<◌, ◌+◌, ◌*◌, ◌-◌, [], Ok, length, slice_index_or, IfSome, IfNone};
ghost use Rattle.btree_pages.specs.Pages.{Page, keys, key_in, page_of, size_at};
ghost use Rattle.tree_edit.specs.Shapes.{RiseIn};
ghost use Rattle.tree_edit.specs.Pages.{in_span, child_in};

use btree_pages::{Entry, TreePage};
use pst_base::{Bref, u64_at};

/// The key of an entry.
fn key_at<E: Entry>(page: &TreePage<E>, i: usize) -> u64
    requires { i < length page.now.entries }
    ensures { result ≡ key_in E.rule (slice_index_or page.now.entries i []) }
{
    let size = if page.level() == 0 { E::size() } else { 24 };
    E::rule(u64_at(&page.entry(i)[..size], 0))
}

/// Whether each key of a page is one from `low` to `high`.
fn in_span<E: Entry>(page: &TreePage<E>, low: u64, high: u64) -> bool
    ensures { result ≡ in_span low high (keys E.rule page.now.entries) }
{
    for i in 0..page.count() {
        let key = key_at(page, i);
        if key < low || high < key {
            return false;
        }
    }
    true
}

/// The page that a content is, if its keys are from `low` to `high`.
pub(crate) fn page_within<'a, E: Entry>(
    body: &'a [u8; 496],
    low: u64,
    high: u64,
) -> Option<TreePage<'a, E>>
    ensures page { IfSome result (λ page. page_of E.rule E.size body.now ≡ Ok page) }
    ensures rises { IfSome result (λ page. RiseIn low (high + 1) (keys E.rule page.entries)) }
    ensures few { IfSome result (λ page. length page.entries * size_at E.size page.level ≤ 488) }
    ensures none { IfNone result ((page : Page) → page_of E.rule E.size body.now ≡ Ok page → RiseIn low (high + 1) (keys E.rule page.entries) → ⊥) }
{
    let page = match TreePage::read(body) {
        Ok(page) => page,
        Err(_) => return None,
    };
    if !in_span(&page, low, high) {
        return None;
    }
    Some(page)
}

/// The same, of a page below the root, which has a level and isn't empty.
pub(crate) fn child_page<'a, E: Entry>(
    body: &'a [u8; 496],
    level: u8,
    low: u64,
    high: u64,
) -> Option<TreePage<'a, E>>
    ensures page { IfSome result (λ page. page_of E.rule E.size body.now ≡ Ok page) }
    ensures rises { IfSome result (λ page. RiseIn low (high + 1) (keys E.rule page.entries)) }
    ensures few { IfSome result (λ page. length page.entries * size_at E.size page.level ≤ 488) }
    ensures level { IfSome result (λ page. page.level ≡ level) }
    ensures some { IfSome result (λ page. 1 ≤ length page.entries) }
    ensures none { IfNone result ((page : Page) → page_of E.rule E.size body.now ≡ Ok page → RiseIn low (high + 1) (keys E.rule page.entries) → page.level ≡ level → 1 ≤ length page.entries → ⊥) }
{
    let Some(page) = page_within(body, low, high) else {
        return None;
    };
    if page.level() != level || page.count() == 0 {
        return None;
    }
    Some(page)
}

/// The page that a content is, if its level is below a limit.
pub(crate) fn page_below<'a, E: Entry>(body: &'a [u8; 496], limit: u8) -> Option<TreePage<'a, E>>
    ensures page { IfSome result (λ page. page_of E.rule E.size body.now ≡ Ok page) }
    ensures low { IfSome result (λ page. page.level < limit) }
    ensures none { IfNone result ((page : Page) → page_of E.rule E.size body.now ≡ Ok page → page.level < limit → ⊥) }
{
    let page = TreePage::read(body).ok()?;
    if page.level() < limit {
        Some(page)
    } else {
        None
    }
}

/// A child of an inner page: the page, its key as it stands there, and the least and the greatest key that may stand below it.
#[derive(Clone, Copy, Debug, PartialEq, Eq)]
pub(crate) struct Seat {
    pub(crate) at: Bref,
    pub(crate) key: u64,
    pub(crate) low: u64,
    pub(crate) high: u64,
}

/// The child that an entry of an inner page names. The first one also takes what lies from `low` to its key.
pub(crate) fn child_seat<E: Entry>(page: &TreePage<E>, i: usize, low: u64, high: u64) -> Seat
    requires inner { 1 ≤ page.now.level }
    requires within { i < length page.now.entries }
    ensures key { E.rule result.key ≡ result.key }
    ensures child { (result.key, result.at) ≡ child_in E.rule (slice_index_or page.now.entries i []) }
    ensures first { i ≡ 0 → result.low ≡ low }
    ensures later { 1 ≤ i → result.low ≡ result.key }
    ensures last { i + 1 ≡ length page.now.entries → result.high ≡ high }
    ensures next { i + 1 < length page.now.entries → result.high ≡ (child_in E.rule (slice_index_or page.now.entries (i + 1) [])).0 - 1 }
{
    let count = page.count();
    let entry = page.inner(i);
    let key = E::rule(entry.key);
    let next = i + 1;
    Seat {
        at: entry.page,
        key,
        low: if i == 0 { low } else { key },
        high: if next < count {
            E::rule(page.inner(next).key).saturating_sub(1)
        } else {
            high
        },
    }
}
