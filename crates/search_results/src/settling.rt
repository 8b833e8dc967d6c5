//! The searches after messages were touched.
ghost use Rattle.std.specs.List.{list_any};
ghost use Rattle.std.specs.Prelude.{◌≡◌, ◌≤◌, ◌+◌, [], ◌∷◌, IfOk, true, false, map};
ghost use Rattle.mail_draft.specs.Outcomes.{places_after};
ghost use Rattle.mail_draft.specs.Sight.{Changes, Drafts, IsAbout};
ghost use Rattle.mail_searches.specs.Asking.{work_of};
ghost use Rattle.mail_searches.specs.Relisting.{settled_search, settled_searches};
ghost use Rattle.mail_searches.specs.Searches.{runs};
ghost use Rattle.search_results.specs.Following.{around_move, changes_at, delta_at, work_by};

use crate::desk::SearchDesk;
use crate::following::{Followed, follow};
use crate::relisting::{relisted, some_gone, takes_row, without_gone};
use crate::results::{results_table, with_results};
use crate::touched::TouchedMessage;
use mail_draft::{Desk, Stop};
use mail_searches::OwnSearch;
use mail_tree::Places;
use pst_base::{Ledger, Steps};
use std::alloc::AllocError;

/// Where folders stand after a command, where they stood as in `old`.
fn places_after<'a>(old: &'a Places, new: &'a Option<Places>) -> &'a Places
    ensures { result.now ≡ places_after old.now new.now }
{
    match new {
        Some(new) => new,
        None => old,
    }
}

/// What becomes of touched messages in the list of a running search, where folders stand as in `new` if they moved.
fn followed<D: SearchDesk, L: Ledger>(
    desk: &D,
    new: &Option<Places>,
    touches: &[TouchedMessage],
    search: &OwnSearch,
    steps: &mut Steps<L>,
) -> Result<Followed, AllocError>
    ensures deltas { IfOk result (λ f. IsAbout (D.view desk.now) (λ T. f.deltas.items ≡ map (delta_at (around_move T new.now) search.now) touches.now)) }
    ensures concerns { IfOk result (λ f. IsAbout (D.view desk.now) (λ T. f.concerns ≡ list_any (changes_at (around_move T new.now) search.now) touches.now)) }
    ensures most { IsAbout (D.view desk.now) (λ T. steps.new ≤ steps.old + work_by (around_move T new.now) search.now touches.now) }
{
    let before = desk.places();
    let after = places_after(before, new);
    follow(desk.alloc(), search, before, after, touches, steps)
}

/// A running search after messages were touched: its list follows them. Its table is read only where a row changes.
#[tactic(auto, unfolding(mail_searches::specs::Relisting::settled_search))]
fn settled_running<D: SearchDesk, L: Ledger>(
    desk: &mut D,
    new: &Option<Places>,
    touches: &[TouchedMessage],
    search: &OwnSearch,
    steps: &mut Steps<L>,
) -> Result<(), Stop>
    requires { runs search.now ≡ true }
    ensures drafts { Drafts (D.view desk.old) (D.view desk.new) result }
    ensures answer { Changes (D.view desk.old) (D.view desk.new) (λ T. settled_search T (around_move T new.now) touches.now search.now) result }
    ensures most { IsAbout (D.view desk.old) (λ T. steps.new ≤ steps.old + work_by (around_move T new.now) search.now touches.now) }
{
    let followed = followed(desk, new, touches, search, steps)?;
    if !followed.concerns {
        return Ok(());
    }
    let node = desk.table(results_table(search.nid))?;
    let list = relisted(desk.alloc(), node, touches, followed.deltas.as_slice())?;
    with_results(desk, search.nid, list)
}

/// A search that isn't running after messages were touched: it loses the rows of those that are there no more.
#[tactic(auto, unfolding(mail_searches::specs::Relisting::settled_search))]
fn settled_halted<D: SearchDesk>(
    desk: &mut D,
    new: &Option<Places>,
    touches: &[TouchedMessage],
    search: &OwnSearch,
) -> Result<(), Stop>
    requires { runs search.now ≡ false }
    ensures drafts { Drafts (D.view desk.old) (D.view desk.new) result }
    ensures answer { Changes (D.view desk.old) (D.view desk.new) (λ T. settled_search T (around_move T new.now) touches.now search.now) result }
{
    if !some_gone(touches) {
        return Ok(());
    }
    let node = desk.table(results_table(search.nid))?;
    if !takes_row(node.table(), touches) {
        return Ok(());
    }
    let list = without_gone(node, touches);
    with_results(desk, search.nid, list)
}

/// A search after messages were touched.
fn settled_search<D: SearchDesk, L: Ledger>(
    desk: &mut D,
    new: &Option<Places>,
    touches: &[TouchedMessage],
    search: &OwnSearch,
    steps: &mut Steps<L>,
) -> Result<(), Stop>
    ensures drafts { Drafts (D.view desk.old) (D.view desk.new) result }
    ensures answer { Changes (D.view desk.old) (D.view desk.new) (λ T. settled_search T (around_move T new.now) touches.now search.now) result }
    ensures most { IsAbout (D.view desk.old) (λ T. steps.new ≤ steps.old + work_of (around_move T new.now) touches.now (search.now ∷ [])) }
{
    if !search.runs() {
        return settled_halted(desk, new, touches, search);
    }
    settled_running(desk, new, touches, search, steps)
}

/// All searches after messages were touched, where folders stand as in `new` if they moved.
pub(crate) fn settled_searches<D: SearchDesk, L: Ledger>(
    desk: &mut D,
    new: &Option<Places>,
    touches: &[TouchedMessage],
    searches: &[OwnSearch],
    steps: &mut Steps<L>,
) -> Result<(), Stop>
    ensures drafts { Drafts (D.view desk.old) (D.view desk.new) result }
    ensures answer { Changes (D.view desk.old) (D.view desk.new) (λ T. settled_searches T (around_move T new.now) touches.now searches.now) result }
    ensures most { IsAbout (D.view desk.old) (λ T. steps.new ≤ steps.old + work_of (around_move T new.now) touches.now searches.now) }
{
    for search in searches {
        settled_search(desk, new, touches, search, steps)?;
    }
    Ok(())
}
