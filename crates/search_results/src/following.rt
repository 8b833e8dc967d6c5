//! What becomes of touched messages in the list of a running search.
ghost use Rattle.std.specs.Prelude.{◌≡◌, ◌≤◌, ◌+◌, map, IfOk};
ghost use Rattle.std.specs.List.{list_any};
ghost use Rattle.mail_searches.specs.Asking.{places_around};
ghost use Rattle.mail_searches.specs.Relisting.{changes_row};
ghost use Rattle.search_results.specs.Following.{changes_at, delta_at, work_by};

use crate::touched::{TouchedMessage, message_of};
use live_search::Delta;
use mail_searches::OwnSearch;
use mail_tree::Places;
use pst_base::{Ledger, Steps};
use std::alloc::{AllocError, Global};

/// What becomes of touched messages in the list of a search, one after the other, and whether a row changes with that.
#[derive(Debug, Drop)]
pub(crate) struct Followed {
    pub(crate) deltas: Vec<Delta>,
    pub(crate) concerns: bool,
}

/// Whether a row comes, goes or shows its message anew.
fn changes_row(delta: Delta, anew: bool) -> bool
    ensures { result ≡ changes_row delta anew }
{
    match delta {
        Delta::Same => false,
        Delta::Enter | Delta::Leave => true,
        Delta::Stay => anew,
    }
}

/// What becomes of touched messages in the list of a search. Its restriction is asked of each of them as it was and as it is, once.
pub(crate) fn follow<L: Ledger>(
    alloc: Global,
    search: &OwnSearch,
    before: &Places,
    after: &Places,
    touches: &[TouchedMessage],
    steps: &mut Steps<L>,
) -> Result<Followed, AllocError>
    ensures deltas { IfOk result (λ f. f.deltas.items ≡ map (delta_at (places_around before.now after.now) search.now) touches.now) }
    ensures concerns { IfOk result (λ f. f.concerns ≡ list_any (changes_at (places_around before.now after.now) search.now) touches.now) }
    ensures most { steps.new ≤ steps.old + work_by (places_around before.now after.now) search.now touches.now }
{
    let mut deltas = Vec::with_capacity(alloc, touches.len())?;
    let mut concerns = false;
    for touch in touches {
        let old = message_of(&touch.old);
        let new = message_of(&touch.new);
        let delta = search.touch(before, after, old, new, steps);
        concerns = concerns || changes_row(delta, touch.anew);
        deltas.push(delta)?;
    }
    Ok(Followed { deltas, concerns })
}
