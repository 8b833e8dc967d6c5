//! Reading the lists of running searches.
ghost use Rattle.std.specs.Prelude.{◌≡◌, [], IfErr};
ghost use Rattle.mail_tree.specs.Tree.{Shown, Tree};
ghost use Rattle.mail_draft.specs.Answers.{IsCaused, Looks, Says};
ghost use Rattle.mail_searches.specs.Searches.{results};
ghost use Rattle.list_check.specs.Watching.{rows_at, watched, watches_of, with_search};

use crate::rows::RowIds;
use crate::watching::Watched;
use mail_draft::Stop;
use mail_folders::table_in;
use mail_searches::OwnSearch;
use node_port::NodeReader;
use pst_base::{Nid, make_nid};
use pst_outside::Outside;
use std::alloc::Global;

/// The table of what a search lists.
fn results(search: Nid) -> Nid
    ensures { result.bits ≡ results search.bits }
{
    make_nid(0x10, search.index())
}

/// The ids of the rows of a search's list.
#[tactic(auto, unfolding(crate::specs::Watching::rows_at))]
fn rows_at<W: Outside, K: NodeReader<W>>(
    alloc: Global,
    keeper: &mut K,
    w: &mut W,
    search: Nid,
) -> Result<RowIds, Stop>
    ensures answer { (T : Tree) → Shown (K.holds keeper.old (W.view w.old)) (K.last keeper.old) T → Says (λ rows. rows) (rows_at T search.bits) result }
    ensures looks { Looks (K.holds keeper.old (W.view w.old)) (K.holds keeper.new (W.view w.new)) (K.last keeper.old) (K.last keeper.new) (K.room keeper.old) (K.room keeper.new) (W.view w.old) (W.view w.new) }
    ensures cause { IfErr result (IsCaused K.has_disk (W.view w.old).disk_faults (W.view w.new).disk_faults) }
{
    let node = table_in(alloc, keeper, w, results(search))?;
    Ok(RowIds::of(alloc, node.table())?)
}

/// These and a search, if it runs.
#[tactic(auto, unfolding(crate::specs::Watching::with_search))]
fn with_search<'a, W: Outside, K: NodeReader<W>>(
    alloc: Global,
    keeper: &mut K,
    w: &mut W,
    watched: Vec<Watched<'a>>,
    search: &'a OwnSearch,
) -> Result<Vec<Watched<'a>>, Stop>
    ensures answer { (T : Tree) → Shown (K.holds keeper.old (W.view w.old)) (K.last keeper.old) T → Says (λ ws. watches_of ws.items) (with_search T (watches_of watched.entry.items) search.now) result }
    ensures looks { Looks (K.holds keeper.old (W.view w.old)) (K.holds keeper.new (W.view w.new)) (K.last keeper.old) (K.last keeper.new) (K.room keeper.old) (K.room keeper.new) (W.view w.old) (W.view w.new) }
    ensures cause { IfErr result (IsCaused K.has_disk (W.view w.old).disk_faults (W.view w.new).disk_faults) }
{
    if !search.runs() {
        return Ok(watched);
    }
    let rows = rows_at(alloc, keeper, w, search.nid)?;
    let mut watched = watched;
    watched.push(Watched { search, rows })?;
    Ok(watched)
}

/// The running ones of these searches.
pub(crate) fn watched<'a, W: Outside, K: NodeReader<W>>(
    alloc: Global,
    keeper: &mut K,
    w: &mut W,
    searches: &'a [OwnSearch],
) -> Result<Vec<Watched<'a>>, Stop>
    ensures answer { (T : Tree) → Shown (K.holds keeper.old (W.view w.old)) (K.last keeper.old) T → Says (λ ws. watches_of ws.items) (watched T [] searches.now) result }
    ensures looks { Looks (K.holds keeper.old (W.view w.old)) (K.holds keeper.new (W.view w.new)) (K.last keeper.old) (K.last keeper.new) (K.room keeper.old) (K.room keeper.new) (W.view w.old) (W.view w.new) }
    ensures cause { IfErr result (IsCaused K.has_disk (W.view w.old).disk_faults (W.view w.new).disk_faults) }
{
    let mut watched = Vec::new(alloc);
    for search in searches {
        watched = with_search(alloc, keeper, w, watched, search)?;
    }
    Ok(watched)
}
