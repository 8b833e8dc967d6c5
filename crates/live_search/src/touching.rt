//! A message before and after a change.
ghost use Rattle.std.specs.Prelude.{◌≡◌, ◌≤◌, ◌+◌, option_copied};
ghost use Rattle.live_search.specs.Touching.{delta, is_met, reached_for, work_for};

use mapi_values::Message;
use pst_base::{Ledger, Steps};
use restr_codec::Restriction;
use restr_eval::eval;

/// What becomes of a message in the list of a search.
#[derive(Clone, Copy, Debug, PartialEq, Eq)]
pub enum Delta {
    /// It wasn't listed and isn't to be.
    Same,
    /// It wasn't listed and is to be.
    Enter,
    /// It was listed and isn't to be.
    Leave,
    /// It was listed and is to be.
    Stay,
}

/// Whether a restriction holds of a message, if there is one.
fn is_met<L: Ledger>(r: &Restriction, message: Option<&Message>, steps: &mut Steps<L>) -> bool
    ensures value { result ≡ is_met r.now (option_copied message.entry) }
    ensures steps { steps.new ≡ steps.old + reached_for r.now (option_copied message.entry) }
    ensures most { steps.new ≤ steps.old + work_for r.now (option_copied message.entry) }
{
    match message {
        Some(message) => eval(r, message, steps),
        None => false,
    }
}

/// What becomes of a message in the list of a search with this restriction, when it was `old` and is `new`. `None` stands for a message that isn't there or isn't in a folder of the search. Each restriction that is reached is one step.
pub fn touch<L: Ledger>(
    r: &Restriction,
    old: Option<&Message>,
    new: Option<&Message>,
    steps: &mut Steps<L>,
) -> Delta
    ensures delta { result ≡ delta (is_met r.now (option_copied old.entry)) (is_met r.now (option_copied new.entry)) }
    ensures steps { steps.new ≡ steps.old + (reached_for r.now (option_copied old.entry) + reached_for r.now (option_copied new.entry)) }
    ensures most { steps.new ≤ steps.old + (work_for r.now (option_copied old.entry) + work_for r.now (option_copied new.entry)) }
{
    let was = is_met(r, old, steps);
    let is = is_met(r, new, steps);
    match (was, is) {
        (false, false) => Delta::Same,
        (false, true) => Delta::Enter,
        (true, false) => Delta::Leave,
        (true, true) => Delta::Stay,
    }
}
