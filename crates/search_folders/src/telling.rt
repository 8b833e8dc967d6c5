//! `getcriteria`, and the criteria that stand.
ghost use Rattle.std.specs.Prelude.{◌≡◌, ◌<◌, ◌^◌, ℕ, List, get_or, length, None, Some, IfErr, IfOk};
ghost use Rattle.mail_tree.specs.Changing.{known, nothing};
ghost use Rattle.mail_tree.specs.Tree.{Tree};
ghost use Rattle.mail_tree.specs.Values.{bytes_of};
ghost use Rattle.search_obj.specs.Objects.{IsFaulty};
ghost use Rattle.mail_draft.specs.declared.stop.Stop.TheVariants.{Changed};
ghost use Rattle.mail_draft.specs.Answers.{IsCalm, Says};
ghost use Rattle.mail_draft.specs.Desks.{Comes};
ghost use Rattle.mail_draft.specs.Sight.{Answers, Reads};
ghost use Rattle.mail_searches.specs.Criteria.{criteria_line, told_criteria};
ghost use Rattle.mail_searches.specs.Searches.{criteria_of};
ghost use Rattle.search_folders.specs.Comings.{ComesAmong};
ghost use Rattle.search_folders.specs.Pieces.{criteria_at, stays_after, told_where, unless_among};

use crate::coming::Coming;
use crate::nodes::criteria_node;
use command_text::{CommandRefusal, LastLine, Reply, Scope};
use mail_draft::{Desk, Stop, bytes_of};
use mail_folders::folder_in;
use mail_objects::Context;
use mail_searches::{KnownSearches, OwnFolders};
use mail_tree::Places;
use mapi_values::Props;
use mapi_values::tags::PTYP_BINARY;
use pst_base::{MemOr, Nid};
use restr_codec::write;
use search_obj::{Criteria, CriteriaSet, SEARCH_RESTRICTION, SEARCH_SCOPE, read_search};
use std::alloc::{AllocError, Global};

/// Tells what was set of a search. The refusals: `Object`, `Reserved`.
pub fn get_criteria<D: Desk>(
    desk: &mut D,
    searches: &KnownSearches,
    search: Nid,
) -> Result<Coming, Stop>
    requires fresh { (D.view desk.old).changed ≡ nothing }
    ensures reads { Reads (D.view desk.old) (D.view desk.new) result }
    ensures answer { ComesAmong (D.view desk.old) (D.view desk.new) searches.now (λ X. stays_after X (told_criteria X search.bits)) result }
{
    let tree = told_where(desk, &searches.own, search)?;
    Ok(Coming::staying(tree))
}

/// What was set of a search, as a reply tells it, where these search folders are own.
#[tactic(auto, unfolding(crate::specs::Pieces::told_where))]
fn told_where<D: Desk>(
    desk: &mut D,
    own: &OwnFolders,
    search: Nid,
) -> Result<mail_draft::Coming, Stop>
    requires fresh { (D.view desk.old).changed ≡ nothing }
    ensures reads { Reads (D.view desk.old) (D.view desk.new) result }
    ensures answer { Comes (D.view desk.old) (D.view desk.new) (λ T c. told_where T own.now search.bits) result }
{
    unless_among(desk.places(), own, search)?;
    let (_, criteria) = criteria_at(desk, search)?;
    let last = criteria_line(desk.alloc(), criteria.set)?;
    let reply = Reply::without_data(desk.alloc(), last);
    Ok(mail_draft::Coming::replied(reply))
}

/// Refused where a folder isn't there, or isn't one of these own search folders.
pub(crate) fn unless_among(places: &Places, own: &OwnFolders, search: Nid) -> Result<(), Stop>
    ensures answer { (T : Tree) → T.places ≡ places.now → Says (λ u. u) (unless_among T own.now search.bits) result }
    ensures calm { IfErr result IsCalm }
{
    let _place = folder_in(places, search)?;
    if !own.contains(search) {
        return Err(Stop::Refused(CommandRefusal::Reserved));
    }
    Ok(())
}

/// The criteria object of an own search folder, and the criteria that it says. `Stop::Refused` where the object isn't there or isn't one of this program, `Stop::Memory` where no memory is left, else as the desk stops.
#[tactic(auto, unfolding(crate::specs::Pieces::criteria_at))]
pub fn criteria_at<D: Desk>(desk: &mut D, search: Nid) -> Result<(Context, Criteria), Stop>
    ensures reads { Reads (D.view desk.old) (D.view desk.new) result }
    ensures answer { Answers (D.view desk.old) (λ p. (p.0, p.1)) (λ T c. criteria_at T search.bits) result }
{
    let context = desk.context_before(criteria_node(search))?;
    let criteria = criteria_in(desk.alloc(), context.props())?;
    Ok((context, criteria))
}

/// The criteria that the values of an object say, which is one of this program.
fn criteria_in(alloc: Global, props: &Props) -> Result<Criteria, Stop>
    ensures answer { Says (λ c. c) (known (criteria_of props.now)) result }
    ensures calm { IfErr result IsCalm }
{
    match read_search(alloc, props) {
        Ok(Some(criteria)) => Ok(criteria),
        Ok(None) => Err(Stop::formless()),
        Err(MemOr::Memory) => Err(Stop::Memory),
        Err(MemOr::Refused(_)) => Err(faulty(props)),
    }
}

/// The stop where an object is marked, and says no criteria.
fn faulty(props: &Props) -> Stop
    requires { IsFaulty props.now }
    ensures stop { result ≡ Changed 0 13 0 }
    ensures none { criteria_of props.now ≡ None }
{
    // That what stands there are bytes, and not too many, is known once they are looked at.
    let _restriction = binary_len(props, SEARCH_RESTRICTION.id);
    let _scope = binary_len(props, SEARCH_SCOPE.id);
    Stop::formless()
}

/// How many bytes the binary value of this id has, if it is one.
fn binary_len(props: &Props, id: u16) -> Option<usize>
    ensures { (b : List ℕ) → bytes_of id 0x0102 props.now ≡ Some b → ((i : ℕ) → get_or b i 0 < 256) × (length b < 2 ^ 32) }
{
    let bytes = bytes_of(props, id, PTYP_BINARY)?;
    Some(byte_count(bytes))
}

/// How many bytes these are.
fn byte_count(bytes: &[u8]) -> usize
    ensures { (i : ℕ) → get_or bytes.now i 0 < 256 }
{
    // Each is one of a slice, and so fits 8 bits.
    bytes.len()
}

/// The line that tells what was set of a search.
fn criteria_line(alloc: Global, set: Option<CriteriaSet>) -> Result<LastLine, AllocError>
    ensures { IfOk result (λ line. line ≡ criteria_line set) }
{
    let Some(set) = set else {
        return Ok(LastLine::NoCriteria);
    };
    let restriction = write(alloc, &set.restriction)?;
    Ok(LastLine::Criteria {
        flags: set.flags.number(),
        scope: Scope::from_vec(set.scope),
        restriction,
        state: set.flags.state(),
        builds: set.builds,
    })
}
