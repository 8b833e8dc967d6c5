//! What a command comes to where there are searches.
ghost use Rattle.std.specs.Prelude.{◌≡◌, ◌≤◌, ◌+◌};
ghost use Rattle.mail_tree.specs.Folders.{made_id};
ghost use Rattle.mail_draft.specs.Desks.{Comes, coming_of};
ghost use Rattle.mail_draft.specs.Sight.{Drafts, IsAbout, Reads};
ghost use Rattle.mail_searches.specs.Asking.{work_of};
ghost use Rattle.mail_searches.specs.Relisting.{around};
ghost use Rattle.mail_searches.specs.Step.{if_within};
ghost use Rattle.search_results.specs.Concluding.{AsksTouched, Concludes, settled_within};

use crate::desk::SearchDesk;
use crate::settling::settled_searches;
use crate::touched::{TouchedMessage, touched};
use command_text::{Command, LastLine};
use mail_draft::{Coming, Desk, Stop};
use mail_searches::{OwnSearch, Searches};
use pst_base::{Ledger, Nid, Steps};

/// The id of the object that a command made, by the last line of its reply.
fn made_id(last: &LastLine) -> Option<Nid>
    ensures { result ≡ made_id last.now }
{
    match last {
        LastLine::Made(made) => Some(*made),
        _ => None,
    }
}

/// What a command comes to, if it keeps to the limits.
fn if_within<D: SearchDesk>(desk: &mut D, coming: Coming) -> Result<Coming, Stop>
    ensures reads { Reads (D.view desk.old) (D.view desk.new) result }
    ensures answer { Comes (D.view desk.old) (D.view desk.new) (λ T c. if_within T (coming_of T c coming)) result }
{
    desk.check_limits(made_id(&coming.reply.last))?;
    Ok(coming)
}

/// What a command comes to that touches these messages, if that keeps to the limits: the lists of searches follow them.
fn with_searches<D: SearchDesk, L: Ledger>(
    desk: &mut D,
    searches: &[OwnSearch],
    touches: &[TouchedMessage],
    coming: Coming,
    steps: &mut Steps<L>,
) -> Result<Coming, Stop>
    ensures drafts { Drafts (D.view desk.old) (D.view desk.new) result }
    ensures answer { Comes (D.view desk.old) (D.view desk.new) (λ T c. settled_within T searches.now touches.now (coming_of T c coming)) result }
    ensures most { IsAbout (D.view desk.old) (λ T. steps.new ≤ steps.old + work_of (around T (coming_of T (D.view desk.old).changed coming)) touches.now searches.now) }
{
    settled_searches(desk, &coming.places, touches, searches, steps)?;
    if_within(desk, coming)
}

/// What a command comes to where there are these searches, where it comes to this in the tree: their lists follow the messages that it touches. Refused where what is then written passes a limit.
pub fn conclude<D: SearchDesk, L: Ledger>(
    desk: &mut D,
    searches: &Searches,
    command: &Command,
    coming: Coming,
    steps: &mut Steps<L>,
) -> Result<Coming, Stop>
    ensures drafts { Drafts (D.view desk.old) (D.view desk.new) result }
    ensures answer { Concludes (D.view desk.old) (D.view desk.new) searches.now command.now coming result }
    ensures asks { AsksTouched (D.view desk.old) searches.now command.now coming steps.old steps.new }
{
    if searches.count() == 0 {
        return if_within(desk, coming);
    }
    let touches = touched(desk, command, &coming)?;
    with_searches(desk, searches.as_slice(), touches.as_slice(), coming, steps)
}
