//! What mending a search comes to.
ghost use Rattle.std.specs.Prelude.{◌≡◌, IfErr};
ghost use Rattle.mail_tree.specs.Changing.{nothing};
ghost use Rattle.mail_tree.specs.Knowing.{Knows};
ghost use Rattle.mail_tree.specs.Tree.{Shown};
ghost use Rattle.mail_tree.specs.Whole.{IsWhole};
ghost use Rattle.store_session.specs.mail_draft.Answers.{IsCaused, Looks, Says};
ghost use Rattle.store_session.specs.mail_draft.Drafts.{changed_of};
ghost use Rattle.store_session.specs.mail_draft.Sight.{Changes, Drafts};
ghost use Rattle.mail_searches.specs.Searching.{Searching};
ghost use Rattle.store_session.specs.search_folders.Comings.{KnowsSearches};
ghost use Rattle.store_session.specs.search_folders.Among.{among};
ghost use Rattle.store_session.specs.mail_draft.Showing.{Showing};
ghost use Rattle.search_mending.specs.Mending.{mended_search, mending_with, with_list};
ghost use Rattle.search_mends.specs.Mendings.{ComesMended, ComesToMend, mending_of};

use crate::listing::list_of_any;
use crate::touching::touched_if;
use crate::turning::{is_first, turned};
use mail_objects::{Context, TableNode};
use mail_searches::KnownSearches;
use mail_tree::Known;
use node_port::NodeReader;
use pst_base::{Ledger, Nid, Steps};
use pst_outside::Outside;
use search_obj::Criteria;
use std::alloc::Global;
use std::mem::replace;
use store_session::mail_draft::on_desk::changing;
use store_session::mail_draft::{Coming, Desk, Draft, Outcome, Seen, Stop, StoreDesk};
use store_session::search_folders::criteria_at;
use store_session::search_results::{SearchDesk, with_results};

/// What mending a search comes to: whether its list was stale, whether its criteria object was of the first version, and what is changed. The searches stay what they are. Contracts see `mending_of` it.
#[derive(Debug, Drop)]
pub struct SearchMending {
    pub stale: bool,
    pub first: bool,
    pub outcome: Outcome,
}

/// The same beside what is changed. Contracts see `mending_beside` it.
#[derive(Debug, Drop)]
pub(crate) struct MendingBeside {
    pub(crate) stale: bool,
    pub(crate) first: bool,
    pub(crate) coming: Coming,
}

/// Makes the list of a search this table, if one is given: the search is counted anew, and the row that shows it is in order.
fn with_list<D: SearchDesk>(desk: &mut D, search: Nid, list: Option<TableNode>) -> Result<(), Stop>
    ensures drafts { Drafts (D.view desk.old) (D.view desk.new) result }
    ensures answer { Changes (D.view desk.old) (D.view desk.new) (λ T. with_list T search.bits list) result }
{
    match list {
        Some(table) => with_results(desk, search, table),
        None => Ok(()),
    }
}

/// What mending a search comes to that is to get this list, if it is to get one, and whose criteria object and criteria are given. Where it is mended all its nodes are written, also those that stay as they are. Refused where what is written passes a limit.
fn mending_with<D: SearchDesk>(
    desk: &mut D,
    search: Nid,
    list: Option<TableNode>,
    context: Context,
    criteria: Criteria,
) -> Result<MendingBeside, Stop>
    requires fresh { (D.view desk.old).changed ≡ nothing }
    ensures drafts { Drafts (D.view desk.old) (D.view desk.new) result }
    ensures answer { ComesMended (D.view desk.old) (D.view desk.new) (λ X. Unit {0}) (λ X. mending_with X search.bits list (context, criteria)) result }
{
    let stale = list.is_some();
    let first = is_first(&criteria);
    turned(desk, search, context, criteria)?;
    with_list(desk, search, list)?;
    touched_if(desk, search, stale || first)?;
    let coming = changing(desk)?;
    Ok(MendingBeside {
        stale,
        first,
        coming,
    })
}

/// What mending the search of an own search folder comes to, on a desk.
fn mended<D: SearchDesk, L: Ledger>(
    desk: &mut D,
    searches: &KnownSearches,
    search: Nid,
    steps: &mut Steps<L>,
) -> Result<MendingBeside, Stop>
    requires fresh { (D.view desk.old).changed ≡ nothing }
    ensures drafts { Drafts (D.view desk.old) (D.view desk.new) result }
    ensures answer { ComesMended (D.view desk.old) (D.view desk.new) (λ X. KnowsSearches X searches.now × IsWhole X.tree) (λ X. mended_search X search.bits) result }
{
    let list = list_of_any(desk, &searches.searches, search, steps)?;
    let (context, criteria) = criteria_at(desk, search)?;
    mending_with(desk, search, list, context, criteria)
}

/// The same on a desk over a keeper, whose draft is taken.
fn taken<W: Outside, K: NodeReader<W>, L: Ledger>(
    desk: &mut StoreDesk<'_, '_, '_, '_, '_, '_, W, K>,
    searches: &KnownSearches,
    search: Nid,
    steps: &mut Steps<L>,
) -> Result<SearchMending, Stop>
    requires fresh { changed_of desk.old.draft.now ≡ nothing }
    ensures names { (desk.new.keeper.ghost_name ≡ desk.old.keeper.ghost_name) × (desk.new.world.ghost_name ≡ desk.old.world.ghost_name) × (desk.new.seen.ghost_name ≡ desk.old.seen.ghost_name) × (desk.new.draft.ghost_name ≡ desk.old.draft.ghost_name) }
    ensures answer { ComesToMend (among (Showing (K.holds desk.old.keeper.now (W.view desk.old.world.now)) (K.last desk.old.keeper.now) desk.old.places.now desk.old.flags.now desk.old.seen.now) searches.now) search.bits result }
    ensures looks { Looks (K.holds desk.old.keeper.now (W.view desk.old.world.now)) (K.holds desk.new.keeper.now (W.view desk.new.world.now)) (K.last desk.old.keeper.now) (K.last desk.new.keeper.now) (K.room desk.old.keeper.now) (K.room desk.new.keeper.now) (W.view desk.old.world.now) (W.view desk.new.world.now) }
    ensures cause { IfErr result (IsCaused K.has_disk (W.view desk.old.world.now).disk_faults (W.view desk.new.world.now).disk_faults) }
{
    let MendingBeside {
        stale,
        first,
        coming,
    } = mended(desk, searches, search, steps)?;
    let draft = replace(desk.draft, Draft::new(desk.alloc));
    let outcome = Outcome {
        draft,
        places: coming.places,
        last: coming.last,
        reply: coming.reply,
    };
    Ok(SearchMending {
        stale,
        first,
        outcome,
    })
}

/// What mending the search of an own search folder comes to. Nothing changes but the count of steps; where the search is neither stale nor of the first version there is nothing to change either. Refused where what is written passes a limit. `Fault` comes where the disk failed, `Memory` where there was no memory, and `Changed` where something isn't as it was found before.
pub fn mending<W: Outside, K: NodeReader<W>, L: Ledger>(
    alloc: Global,
    keeper: &mut K,
    w: &mut W,
    known: &Known,
    searches: &KnownSearches,
    search: Nid,
    steps: &mut Steps<L>,
) -> Result<SearchMending, Stop>
    ensures answer { (X : Searching) → Shown (K.holds keeper.old (W.view w.old)) (K.last keeper.old) X.tree → Knows X.tree known.now → KnowsSearches X searches.now → IsWhole X.tree → Says (mending_of X) (mended_search X search.bits) result }
    ensures looks { Looks (K.holds keeper.old (W.view w.old)) (K.holds keeper.new (W.view w.new)) (K.last keeper.old) (K.last keeper.new) (K.room keeper.old) (K.room keeper.new) (W.view w.old) (W.view w.new) }
    ensures cause { IfErr result (IsCaused K.has_disk (W.view w.old).disk_faults (W.view w.new).disk_faults) }
{
    let mut seen = Seen::new(alloc);
    let mut draft = Draft::new(alloc);
    let mut desk = StoreDesk {
        keeper,
        world: w,
        places: &known.places,
        flags: &known.flags,
        seen: &mut seen,
        draft: &mut draft,
        alloc,
    };
    taken(&mut desk, searches, search, steps)
}
