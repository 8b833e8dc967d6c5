//! The pages below a root after edits.
ghost use Rattle.std.specs.Prelude.{◌≡◌, ◌≤◌, ◌<◌, ◌+◌, ◌*◌, ◌^◌, ℕ, List, Option, suc, map, drop, take, length, IfOk, IfErr};
ghost use Rattle.pst_base.specs.declared.ids.Bref.{Bref as Brefs};
ghost use Rattle.btree_pages.specs.Pages.{keys};
ghost use Rattle.tree_edit.specs.Shapes.{RiseIn, AreBelow, IsTree};
ghost use Rattle.tree_edit.specs.Edits.{AreEdits, edited, puts};
ghost use Rattle.tree_edit.specs.Plans.{AreKeys, AreWritable, keys_of};
ghost use Rattle.tree_edit.specs.Joins.{StandsFor, IsMost, size_of};
ghost use Rattle.tree_edit.specs.Steps.{Becomes, IsRead, IsSpare, Lays, Replaces, TellsBelow, TellsTree};
ghost use Rattle.tree_edit.specs.Pages.{shapes, child_in};
ghost use Rattle.tree_edit.specs.Source.{Later, StopsOn};

use crate::join::{Content, behind, held_child, in_front, reached, settle, stays};
use crate::merge::merged_leaf;
use crate::pack::{most_at, pack_leaves, quarter};
use crate::page::{Seat, child_page, child_seat};
use crate::plan::{Child, PlanPage};
use crate::source::PageSource;
use btree_pages::{Entry, TreePage};
use pst_base::{Bref, MemOr, SourceStop};
use std::alloc::{AllocError, Global};

/// The stop at a page that isn't one of its place in the tree.
pub(crate) fn changed(at: Bref) -> MemOr<SourceStop>
    ensures { result ≡ MemOr.Refused (SourceStop.Changed at.ib 0 0) }
{
    MemOr::Refused(SourceStop::Changed {
        ib: at.ib,
        stored: 0,
        computed: 0,
    })
}

/// How many of some edits, from the first on, have keys up to this one.
fn count_up_to<E: Entry>(edits: &[(u64, Option<E>)], high: u64) -> usize
    ensures within { result ≤ length edits.now }
    ensures front { (low end : ℕ) → AreEdits E.key low end edits.now → low ≤ high + 1 → AreEdits E.key low (high + 1) (take result edits.now) }
    ensures back { (low end : ℕ) → AreEdits E.key low end edits.now → low ≤ high + 1 → AreEdits E.key (high + 1) end (drop result edits.now) }
{
    let mut n = 0;
    while n < edits.len() && edits[n].0 <= high {
        n += 1;
    }
    n
}

/// The leaves that stand for one after edits.
pub(crate) fn edit_leaf<E: Entry>(
    alloc: Global,
    page: &TreePage<E>,
    edits: &[(u64, Option<E>)],
    pages: &mut Vec<PlanPage<E>>,
) -> Result<Vec<(u64, Child)>, AllocError>
    requires leaf { page.now.level ≡ 0 }
    requires rises { RiseIn 0 (2 ^ 64) (map E.key (map E.entry_of page.now.entries)) }
    requires edits { AreEdits E.key 0 (2 ^ 64) edits.now }
    ensures writable { IfOk result (λ _. AreWritable E.key E.rule E.size pages.old.items → AreWritable E.key E.rule E.size pages.new.items) }
    ensures keys { IfOk result (λ cs. AreKeys E.rule (keys_of cs.items)) }
    ensures lays { IfOk result (λ cs. Lays E.key pages.old.items pages.new.items cs.items (edited E.key (map E.entry_of page.now.entries) edits.now)) }
    ensures grows { IfOk result (λ cs. length pages.new.items ≡ length pages.old.items + length cs.items) }
    ensures few { IfOk result (λ cs. length page.now.entries * E.size ≤ 488 → length cs.items ≤ 1 + length edits.now) }
    ensures news { IfOk result (λ cs. length page.now.entries * E.size ≤ 488 → length cs.items ≤ 1 + puts E.key (map E.entry_of page.now.entries) edits.now) }
{
    let entries = merged_leaf(alloc, page, edits)?;
    let leaves = pack_leaves(alloc, entries.as_slice(), pages)?;
    Ok(leaves)
}

/// What a child comes to by edits of keys from its seat's span. It is read and freed, also without edits.
#[cycle(edit)]
fn edit_below<E: Entry, S: PageSource>(
    alloc: Global,
    level: u8,
    seat: Seat,
    edits: &[(u64, Option<E>)],
    s: &mut S,
    pages: &mut Vec<PlanPage<E>>,
    freed: &mut Vec<Bref>,
) -> Result<Content<E>, MemOr<SourceStop>>
    requires edits { AreEdits E.key seat.low (seat.high + 1) edits.now }
    requires low { seat.low ≤ seat.key }
    requires high { seat.key ≤ seat.high }
    requires level { level ≤ 7 }
    ensures writable { IfOk result (λ _. AreWritable E.key E.rule E.size pages.old.items → AreWritable E.key E.rule E.size pages.new.items) }
    ensures later { Later (S.view s.old) (S.view s.new) }
    ensures stopped { IfErr result (StopsOn (TellsTree E.rule E.size E.entry_of E.key level seat.key (seat.high + 1) seat.at) (S.view s.old) (S.view s.new)) }
    ensures entries { IfOk result (λ made. RiseIn seat.low (seat.high + 1) (map E.key made.entries.items)) }
    ensures children { IfOk result (λ made. RiseIn seat.low (seat.high + 1) (keys_of made.children.items)) }
    ensures keys { IfOk result (λ made. AreKeys E.rule (keys_of made.children.items)) }
    ensures few { IfOk result (λ made. (most : ℕ) → IsMost E.size level most → size_of level made.entries.items made.children.items ≤ most + length edits.now) }
    ensures grows { IfOk result (λ _. length pages.new.items ≤ length pages.old.items + (2 * level) * length edits.now) }
    ensures becomes { IfOk result (λ made. (find : Brefs → Option (List ℕ)) → (S.view s.old).holds find → (es : List E) (ps : List Brefs)
        → IsTree (shapes E.rule E.size E.entry_of find) E.key level seat.key (seat.high + 1) seat.at es ps
        → Becomes (shapes E.rule E.size E.entry_of find) (StandsFor E.key level (seat.high + 1) made.entries.items made.children.items) pages.old.items pages.new.items freed.old.items freed.new.items (edited E.key es edits.now) ps) }
    ensures spare { IfOk result (λ made. (find : Brefs → Option (List ℕ)) → (S.view s.old).holds find → (es : List E) (ps : List Brefs)
        → IsTree (shapes E.rule E.size E.entry_of find) E.key level seat.key (seat.high + 1) seat.at es ps
        → IsRead E.size level (puts E.key es edits.now) (size_of level made.entries.items made.children.items) (length pages.old.items) (length pages.new.items) (length freed.old.items) (length freed.new.items)) }
{
    let body = s.page(seat.at)?;
    let Some(page) = child_page::<E>(&body, level, seat.low, seat.high) else {
        return Err(changed(seat.at));
    };
    freed.push(seat.at)?;
    if level == 0 {
        return Ok(Content {
            entries: merged_leaf(alloc, &page, edits)?,
            children: Vec::new(alloc),
        });
    }
    let children = edit_children(alloc, &page, seat.low, seat.high, edits, s, pages, freed)?;
    Ok(Content {
        entries: Vec::new(alloc),
        children,
    })
}

/// What the children of an inner page become by edits of keys from the page's span. What edits leave less than a quarter full is joined with what stands before it, or else behind it.
#[cycle(edit)]
pub(crate) fn edit_children<E: Entry, S: PageSource>(
    alloc: Global,
    page: &TreePage<E>,
    low: u64,
    high: u64,
    edits: &[(u64, Option<E>)],
    s: &mut S,
    pages: &mut Vec<PlanPage<E>>,
    freed: &mut Vec<Bref>,
) -> Result<Vec<(u64, Child)>, MemOr<SourceStop>>
    requires inner { 1 ≤ page.now.level }
    requires span { low ≤ high }
    requires edits { AreEdits E.key low (high + 1) edits.now }
    requires rises { RiseIn low (high + 1) (keys E.rule page.now.entries) }
    ensures writable { IfOk result (λ _. AreWritable E.key E.rule E.size pages.old.items → AreWritable E.key E.rule E.size pages.new.items) }
    ensures later { Later (S.view s.old) (S.view s.new) }
    ensures stopped { IfErr result (StopsOn (TellsBelow E.rule E.size E.entry_of E.key page.now (high + 1)) (S.view s.old) (S.view s.new)) }
    ensures rises { IfOk result (λ cs. RiseIn low (high + 1) (keys_of cs.items)) }
    ensures keys { IfOk result (λ cs. AreKeys E.rule (keys_of cs.items)) }
    ensures few { IfOk result (λ cs. length cs.items ≤ length page.now.entries + length edits.now) }
    ensures grows { IfOk result (λ _. length pages.new.items ≤ length pages.old.items + (2 * page.now.level) * length edits.now) }
    ensures replaces { IfOk result (λ cs. (find : Brefs → Option (List ℕ)) → (S.view s.old).holds find → (n : ℕ) → page.now.level ≡ suc n → 1 ≤ length page.now.entries → (es : List E) (ps : List Brefs)
        → AreBelow (IsTree (shapes E.rule E.size E.entry_of find) E.key n) (high + 1) (map (child_in E.rule) page.now.entries) es ps
        → Replaces (shapes E.rule E.size E.entry_of find) E.key n (high + 1) pages.old.items pages.new.items freed.old.items freed.new.items cs.items (edited E.key es edits.now) ps) }
    ensures spare { IfOk result (λ cs. (find : Brefs → Option (List ℕ)) → (S.view s.old).holds find → (n : ℕ) → page.now.level ≡ suc n → 1 ≤ length page.now.entries → (es : List E) (ps : List Brefs)
        → AreBelow (IsTree (shapes E.rule E.size E.entry_of find) E.key n) (high + 1) (map (child_in E.rule) page.now.entries) es ps
        → IsSpare n (length page.now.entries) (puts E.key es edits.now) (length pages.old.items) (length pages.new.items) (length freed.old.items) (length freed.new.items) (length cs.items)) }
{
    let level = page.level() - 1;
    let most = most_at::<E>(level);
    let least = quarter(most);
    let mut out = Vec::new(alloc);
    let mut held = held_child(alloc, None);
    let (none, _) = edits.split_at(0);
    let mut rest = edits;
    let count = page.count();
    let mut i = 0;
    while i < count {
        let seat = child_seat(page, i, low, high);
        let n = count_up_to(rest, seat.high);
        let (mine, others) = rest.split_at(n);
        rest = others;
        i += 1;
        if stays(level, least, &held.content, n) {
            settle(alloc, level, held, &mut out, pages)?;
            held = held_child(alloc, Some(seat));
        } else {
            let more = edit_below(alloc, level, seat, mine, s, pages, freed)?;
            held = behind(alloc, level, least, held, more, &mut out, pages)?;
            if let Some(before) = reached(level, least, &held) {
                let first = edit_below(alloc, level, before, none, s, pages, freed)?;
                held = in_front(first, held)?;
            }
        }
    }
    settle(alloc, level, held, &mut out, pages)?;
    Ok(out)
}
