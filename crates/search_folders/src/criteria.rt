//! `criteria`
ghost use Rattle.std.specs.Prelude.{◌≡◌, ◌*◌, ◌<◌, ◌^◌, length, Some, IfErr, IfOk, IsTrue, Ok, OnOk};
ghost use Rattle.std.specs.Option.{ForSome};
ghost use Rattle.restr_codec.specs.Spelling.{has_spelling, spelling};
ghost use Rattle.search_obj.specs.Flags.{are_allowed};
ghost use Rattle.search_obj.specs.Objects.{Says as SaysCriteria};
ghost use Rattle.search_obj.specs.Writing.{written};
ghost use Rattle.mail_tree.specs.Changing.{known, nothing};
ghost use Rattle.mail_tree.specs.Settling.{with_context};
ghost use Rattle.mail_draft.specs.Answers.{IsCalm, Says};
ghost use Rattle.mail_draft.specs.Sight.{Answers, Changes, Drafts, Reads};
ghost use Rattle.mail_searches.specs.Criteria.{built_unless, given_criteria, overfills, with_criteria};
ghost use Rattle.mail_searches.specs.Searches.{criteria_node};
ghost use Rattle.search_folders.specs.Comings.{ComesAmong};
ghost use Rattle.search_folders.specs.Givens.{criteria_after, given_of};
ghost use Rattle.search_folders.specs.Pieces.{setting};

use crate::building::built;
use crate::coming::Coming;
use crate::given::{Given, changed, given_all};
use crate::nodes::criteria_node;
use crate::telling::{criteria_at, unless_among};
use command_text::{CommandRefusal, LastLine, Limit, Scope};
use mail_draft::on_desk::{put_context, replying};
use mail_draft::{Desk, Stop};
use mail_objects::Context;
use mail_searches::{KnownSearches, OwnSearch, Searches};
use mapi_values::Props;
use pst_base::{Bytes, Ledger, Nid, Steps};
use search_obj::{Criteria, CriteriaSet, write_search};
use search_results::SearchDesk;
use std::alloc::{AllocError, Global};

/// Gives a search criteria, and builds its list anew unless the flags stop it. What the line doesn't give is kept. The refusals: `Object`, `Reserved`, `Flags`, `Restriction`, `Scope`, `Criteria`, `Limit`, each where `criteria` says so.
#[tactic(auto, unfolding(mail_searches::specs::Criteria::given_criteria))]
pub fn set_criteria<D: SearchDesk, L: Ledger>(
    desk: &mut D,
    searches: &KnownSearches,
    search: Nid,
    flags: u32,
    scope: &Option<Scope>,
    restriction: &Option<Bytes>,
    steps: &mut Steps<L>,
) -> Result<Coming, Stop>
    requires fresh { (D.view desk.old).changed ≡ nothing }
    ensures drafts { Drafts (D.view desk.old) (D.view desk.new) result }
    ensures answer { ComesAmong (D.view desk.old) (D.view desk.new) searches.now (λ X. given_criteria X search.bits flags scope.now restriction.now) result }
{
    unless_among(desk.places(), &searches.own, search)?;
    let given = given_all(desk.alloc(), desk.places(), flags, scope, restriction)?;
    let (context, criteria) = criteria_after(desk, search, given)?;
    with_criteria(desk, searches, search, context, criteria, steps)
}

/// The criteria object of a search, and the criteria that it is to say after a line. Refused where a scope or a restriction is to be kept of a search that has none.
#[tactic(auto, unfolding(crate::specs::Givens::criteria_after))]
fn criteria_after<D: Desk>(
    desk: &mut D,
    search: Nid,
    given: Given,
) -> Result<(Context, Criteria), Stop>
    requires allowed { IsTrue (are_allowed given.flags) }
    requires scope_fits { ForSome given.scope (λ ids. 4 * length ids.items < 2 ^ 32) }
    requires spelled { ForSome given.restriction (λ r. IsTrue (has_spelling r)) }
    requires restriction_fits { ForSome given.restriction (λ r. length (spelling r) < 2 ^ 32) }
    ensures reads { Reads (D.view desk.old) (D.view desk.new) result }
    ensures answer { Answers (D.view desk.old) (λ p. (p.0, p.1)) (λ T c. criteria_after T search.bits (given_of given)) result }
{
    let (context, old) = criteria_at(desk, search)?;
    let criteria = changed(desk.alloc(), old, given)?;
    Ok((context, criteria))
}

/// The values of a criteria object that says other criteria.
fn with_said(alloc: Global, props: &Props, criteria: &Criteria) -> Result<Props, AllocError>
    ensures values { IfOk result (λ p. p ≡ written criteria.now props.now) }
    ensures says { IfOk result (λ p. SaysCriteria p criteria.now) }
{
    write_search(alloc, props.copy(alloc)?, criteria)
}

/// Makes the criteria object of a search, whose context is given, say these criteria.
pub fn saying<D: Desk>(
    desk: &mut D,
    search: Nid,
    context: Context,
    criteria: &Criteria,
) -> Result<(), Stop>
    ensures drafts { Drafts (D.view desk.old) (D.view desk.new) result }
    ensures answer { Changes (D.view desk.old) (D.view desk.new) (λ T c. Ok (with_context (criteria_node search.bits) context (written criteria.now context.props) c)) result }
    ensures says { OnOk result (SaysCriteria (written criteria.now context.props) criteria.now) }
{
    let props = with_said(desk.alloc(), context.props(), criteria)?;
    put_context(desk, criteria_node(search), context, props)
}

/// What was set, which stands in these criteria.
fn set_of(criteria: Criteria) -> Result<CriteriaSet, Stop>
    ensures answer { Says (λ s. s) (known criteria.set) result }
    ensures set { IfOk result (λ s. criteria.set ≡ Some s) }
    ensures calm { IfErr result IsCalm }
{
    match criteria.set {
        Some(set) => Ok(set),
        None => Err(Stop::formless()),
    }
}

/// Whether a search of which this was set is stopped.
fn is_stopped(set: &CriteriaSet) -> bool
    ensures { result ≡ set.now.flags.stop }
{
    set.flags.stop
}

/// A search gets these criteria, which were set: its object says them, and its list is built.
#[tactic(auto, unfolding(mail_searches::specs::Criteria::with_criteria))]
fn with_criteria<D: SearchDesk, L: Ledger>(
    desk: &mut D,
    searches: &KnownSearches,
    search: Nid,
    context: Context,
    criteria: Criteria,
    steps: &mut Steps<L>,
) -> Result<Coming, Stop>
    requires fresh { (D.view desk.old).changed ≡ nothing }
    ensures drafts { Drafts (D.view desk.old) (D.view desk.new) result }
    ensures answer { ComesAmong (D.view desk.old) (D.view desk.new) searches.now (λ X. with_criteria X search.bits context criteria) result }
{
    saying(desk, search, context, &criteria)?;
    let set = set_of(criteria)?;
    let stopped = is_stopped(&set);
    let own = OwnSearch::new(search, set);
    setting(desk, searches, own, stopped, steps)
}

/// A search, whose criteria stand in the draft, comes in place of the one with its folder, and its list is built unless it is stopped.
#[tactic(auto, unfolding(crate::specs::Pieces::setting))]
fn setting<D: SearchDesk, L: Ledger>(
    desk: &mut D,
    searches: &KnownSearches,
    search: OwnSearch,
    stopped: bool,
    steps: &mut Steps<L>,
) -> Result<Coming, Stop>
    ensures drafts { Drafts (D.view desk.old) (D.view desk.new) result }
    ensures answer { ComesAmong (D.view desk.old) (D.view desk.new) searches.now (λ X. setting X search stopped (D.view desk.old).changed) result }
{
    built_unless(desk, &search, stopped, steps)?;
    let after = searches.searches.with(desk.alloc(), search)?;
    let reason = overfills(&searches.searches, &after);
    let tree = replying(desk, reason, LastLine::Done)?;
    Ok(Coming {
        tree,
        own: None,
        searches: Some(after),
    })
}

/// Builds the list of a search anew, but not that of one that is stopped.
fn built_unless<D: SearchDesk, L: Ledger>(
    desk: &mut D,
    search: &OwnSearch,
    stopped: bool,
    steps: &mut Steps<L>,
) -> Result<(), Stop>
    ensures drafts { Drafts (D.view desk.old) (D.view desk.new) result }
    ensures answer { Changes (D.view desk.old) (D.view desk.new) (λ T. built_unless stopped T search.now) result }
{
    if stopped {
        return Ok(());
    }
    built(desk, search, steps)
}

/// Why there may not be these searches after those: they are more than 64, and more than before.
fn overfills(before: &Searches, after: &Searches) -> Option<CommandRefusal>
    ensures { result ≡ overfills before.now after.now }
{
    if after.count() > 64 && after.count() > before.count() {
        return Some(CommandRefusal::Limit(Limit::Searches));
    }
    None
}
