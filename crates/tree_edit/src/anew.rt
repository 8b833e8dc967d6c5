//! The entries of a whole tree, and its pages.
ghost use Rattle.std.specs.Prelude.{◌≡◌, ◌≤◌, ◌+◌, ◌^◌, ◌++◌, ℕ, List, Option, suc, map, IfOk, IfErr, OnOk};
ghost use Rattle.pst_base.specs.declared.ids.Bref.{Bref as Brefs};
ghost use Rattle.btree_pages.specs.Pages.{keys};
ghost use Rattle.tree_edit.specs.Shapes.{RiseIn, AreBelow, IsTree};
ghost use Rattle.tree_edit.specs.Steps.{IsUnder, TellsBelow, TellsTree, TellsUnder};
ghost use Rattle.tree_edit.specs.Pages.{shapes, child_in};
ghost use Rattle.tree_edit.specs.Source.{Later, StopsOn};

use crate::descent::changed;
use crate::merge::push_leaf;
use crate::page::{Seat, child_page, child_seat};
use crate::source::PageSource;
use btree_pages::{Entry, TreePage};
use pst_base::{Bref, MemOr, SourceStop};
use std::alloc::Global;

/// Puts the entries below a child behind others, and its pages behind those that are freed.
#[cycle(gather)]
fn gather_below<E: Entry, S: PageSource>(
    level: u8,
    seat: Seat,
    s: &mut S,
    entries: &mut Vec<E>,
    freed: &mut Vec<Bref>,
) -> Result<(), MemOr<SourceStop>>
    requires low { seat.low ≤ seat.key }
    requires high { seat.key ≤ seat.high }
    ensures later { Later (S.view s.old) (S.view s.new) }
    ensures stopped { IfErr result (StopsOn (TellsTree E.rule E.size E.entry_of E.key level seat.key (seat.high + 1) seat.at) (S.view s.old) (S.view s.new)) }
    ensures rises { OnOk result (RiseIn 0 seat.low (map E.key entries.old.items) → RiseIn 0 (seat.high + 1) (map E.key entries.new.items)) }
    ensures gathered { OnOk result ((find : Brefs → Option (List ℕ)) → (S.view s.old).holds find → (es : List E) (ps : List Brefs)
        → IsTree (shapes E.rule E.size E.entry_of find) E.key level seat.key (seat.high + 1) seat.at es ps
        → (entries.new.items ≡ entries.old.items ++ es) × (freed.new.items ≡ freed.old.items ++ ps)) }
{
    let body = s.page(seat.at)?;
    let Some(page) = child_page::<E>(&body, level, seat.low, seat.high) else {
        return Err(changed(seat.at));
    };
    freed.push(seat.at)?;
    if level == 0 {
        push_leaf(&page, entries)?;
        return Ok(());
    }
    gather_children(&page, seat.low, seat.high, s, entries, freed)?;
    Ok(())
}

/// The same, of the children of an inner page, in their order.
#[cycle(gather)]
fn gather_children<E: Entry, S: PageSource>(
    page: &TreePage<E>,
    low: u64,
    high: u64,
    s: &mut S,
    entries: &mut Vec<E>,
    freed: &mut Vec<Bref>,
) -> Result<(), MemOr<SourceStop>>
    requires inner { 1 ≤ page.now.level }
    requires span { low ≤ high }
    requires rises { RiseIn low (high + 1) (keys E.rule page.now.entries) }
    ensures later { Later (S.view s.old) (S.view s.new) }
    ensures stopped { IfErr result (StopsOn (TellsBelow E.rule E.size E.entry_of E.key page.now (high + 1)) (S.view s.old) (S.view s.new)) }
    ensures rises { OnOk result (RiseIn 0 low (map E.key entries.old.items) → RiseIn 0 (high + 1) (map E.key entries.new.items)) }
    ensures gathered { OnOk result ((find : Brefs → Option (List ℕ)) → (S.view s.old).holds find → (n : ℕ) → page.now.level ≡ suc n → (es : List E) (ps : List Brefs)
        → AreBelow (IsTree (shapes E.rule E.size E.entry_of find) E.key n) (high + 1) (map (child_in E.rule) page.now.entries) es ps
        → (entries.new.items ≡ entries.old.items ++ es) × (freed.new.items ≡ freed.old.items ++ ps)) }
{
    let level = page.level() - 1;
    for i in 0..page.count() {
        let seat = child_seat(page, i, low, high);
        gather_below(level, seat, s, entries, freed)?;
    }
    Ok(())
}

/// The entries below a root. All pages there are put behind those that are freed.
pub(crate) fn gathered<E: Entry, S: PageSource>(
    alloc: Global,
    page: &TreePage<E>,
    s: &mut S,
    freed: &mut Vec<Bref>,
) -> Result<Vec<E>, MemOr<SourceStop>>
    requires rises { RiseIn 0 (2 ^ 64) (keys E.rule page.now.entries) }
    ensures later { Later (S.view s.old) (S.view s.new) }
    ensures stopped { IfErr result (StopsOn (TellsUnder E.rule E.size E.entry_of E.key page.now) (S.view s.old) (S.view s.new)) }
    ensures rises { IfOk result (λ entries. RiseIn 0 (2 ^ 64) (map E.key entries.items)) }
    ensures gathered { IfOk result (λ entries. (find : Brefs → Option (List ℕ)) → (S.view s.old).holds find → (es : List E) (ps : List Brefs)
        → IsUnder (shapes E.rule E.size E.entry_of find) E.key E.rule E.entry_of page.now es ps
        → (entries.items ≡ es) × (freed.new.items ≡ freed.old.items ++ ps)) }
{
    let mut entries = Vec::new(alloc);
    if page.level() == 0 {
        push_leaf(page, &mut entries)?;
        return Ok(entries);
    }
    gather_children(page, 0, u64::MAX, s, &mut entries, freed)?;
    Ok(entries)
}
