//! `rename`, `mvdir` and `rmdir` of an own search folder.
ghost use Rattle.std.specs.Prelude.{◌≡◌, Ok};
ghost use Rattle.mail_tree.specs.Changing.{nothing};
ghost use Rattle.mail_draft.specs.Desks.{Comes};
ghost use Rattle.mail_draft.specs.Sight.{Changes, Drafts};
ghost use Rattle.mail_searches.specs.Moving.{moved_search, removed_search, removing_search, renamed_search, without_search};
ghost use Rattle.search_folders.specs.Comings.{ComesAmong};
ghost use Rattle.search_folders.specs.Moves.{dropping_search, moving_search, placing_search, without_nodes};

use crate::coming::Coming;
use crate::nodes::{criteria_node, updates};
use crate::places::with_place;
use command_text::{LastLine, Reply};
use mail_draft::on_desk::{changing, drop_shown};
use mail_draft::{Desk, Stop, hierarchy};
use mail_folders::on_desk::{
    moved_between, moving, named_anew, unless_beside, unless_crowds_name, unless_protected,
};
use mail_folders::{
    FolderDesk, folder_in, plain_in, unless_moves_deep, unless_within, without_place,
};
use mail_searches::KnownSearches;
use mapi_values::Units;
use pst_base::Nid;
use search_results::results_table;

/// Gives a search folder another name. The refusals: `Object`, `Protected`, `NameTaken`, `Limit`.
#[tactic(auto, unfolding(mail_searches::specs::Moving::renamed_search))]
pub fn rename_search<D: FolderDesk>(
    desk: &mut D,
    search: Nid,
    name: &Units,
) -> Result<mail_draft::Coming, Stop>
    requires fresh { (D.view desk.old).changed ≡ nothing }
    ensures drafts { Drafts (D.view desk.old) (D.view desk.new) result }
    ensures answer { Comes (D.view desk.old) (D.view desk.new) (λ T c. renamed_search T search.bits name.now) result }
{
    let place = folder_in(desk.places(), search)?;
    unless_protected(desk, search)?;
    unless_beside(desk, place.parent, search, name)?;
    named_anew(desk, search, name)?;
    changing(desk)
}

/// Moves a search folder into a parent. The refusals: `Object`, `Reserved`, `Protected`, `Cycle`, `NameTaken`, `Limit`.
#[tactic(auto, unfolding(mail_searches::specs::Moving::moved_search))]
pub fn move_search<D: FolderDesk>(
    desk: &mut D,
    search: Nid,
    parent: Nid,
) -> Result<mail_draft::Coming, Stop>
    requires fresh { (D.view desk.old).changed ≡ nothing }
    ensures drafts { Drafts (D.view desk.old) (D.view desk.new) result }
    ensures answer { Comes (D.view desk.old) (D.view desk.new) (λ T c. moved_search T search.bits parent.bits) result }
{
    let place = folder_in(desk.places(), search)?;
    let _parent_place = plain_in(desk.places(), parent)?;
    unless_protected(desk, search)?;
    unless_within(desk.alloc(), desk.places(), search, parent)?;
    if place.parent.bits == parent.bits {
        let reply = Reply::without_data(desk.alloc(), LastLine::Done);
        return Ok(mail_draft::Coming::replied(reply));
    }
    moving_search(desk, search, place.parent, parent)
}

/// Moves a search folder to another parent than it has.
#[tactic(auto, unfolding(crate::specs::Moves::moving_search))]
fn moving_search<D: FolderDesk>(
    desk: &mut D,
    search: Nid,
    from: Nid,
    to: Nid,
) -> Result<mail_draft::Coming, Stop>
    requires fresh { (D.view desk.old).changed ≡ nothing }
    ensures drafts { Drafts (D.view desk.old) (D.view desk.new) result }
    ensures answer { Comes (D.view desk.old) (D.view desk.new) (λ T c. moving_search T search.bits from.bits to.bits) result }
{
    unless_crowds_name(desk, search, to)?;
    unless_moves_deep(desk.alloc(), desk.places(), search, to)?;
    placing_search(desk, search, from, to)
}

/// Moves a search folder from one parent to another, where it then stands.
#[tactic(auto, unfolding(crate::specs::Moves::placing_search))]
fn placing_search<D: FolderDesk>(
    desk: &mut D,
    search: Nid,
    from: Nid,
    to: Nid,
) -> Result<mail_draft::Coming, Stop>
    requires fresh { (D.view desk.old).changed ≡ nothing }
    ensures drafts { Drafts (D.view desk.old) (D.view desk.new) result }
    ensures answer { Comes (D.view desk.old) (D.view desk.new) (λ T c. placing_search T search.bits from.bits to.bits) result }
{
    let after = with_place(desk.alloc(), desk.places(), search, to)?;
    moved_between(desk, &after, search, from, to)?;
    moving(desk, after)
}

/// Removes a search folder with its criteria, whatever it lists. The refusals: `Object`, `Protected`, `Limit`.
#[tactic(auto, unfolding(mail_searches::specs::Moving::removed_search))]
pub fn remove_search<D: FolderDesk>(
    desk: &mut D,
    searches: &KnownSearches,
    search: Nid,
) -> Result<Coming, Stop>
    requires fresh { (D.view desk.old).changed ≡ nothing }
    ensures drafts { Drafts (D.view desk.old) (D.view desk.new) result }
    ensures answer { ComesAmong (D.view desk.old) (D.view desk.new) searches.now (λ X. removed_search X search.bits) result }
{
    let own = searches.own.without(desk.alloc(), search)?;
    let left = searches.searches.without(desk.alloc(), search)?;
    let tree = removing_search(desk, search)?;
    Ok(Coming {
        tree,
        own: Some(own),
        searches: Some(left),
    })
}

/// What the removal of a search folder comes to in the tree.
#[tactic(auto, unfolding(mail_searches::specs::Moving::removing_search))]
fn removing_search<D: FolderDesk>(desk: &mut D, search: Nid) -> Result<mail_draft::Coming, Stop>
    requires fresh { (D.view desk.old).changed ≡ nothing }
    ensures drafts { Drafts (D.view desk.old) (D.view desk.new) result }
    ensures answer { Comes (D.view desk.old) (D.view desk.new) (λ T c. removing_search T search.bits) result }
{
    let place = folder_in(desk.places(), search)?;
    unless_protected(desk, search)?;
    dropping_search(desk, search, place.parent)
}

/// Takes away the three nodes that each search folder has.
fn drop_nodes<D: Desk>(desk: &mut D, search: Nid) -> Result<(), Stop>
    ensures drafts { Drafts (D.view desk.old) (D.view desk.new) result }
    ensures answer { Changes (D.view desk.old) (D.view desk.new) (λ T c. Ok (without_nodes search.bits c)) result }
{
    desk.put(search, None)?;
    desk.put(criteria_node(search), None)?;
    desk.put(results_table(search), None)
}

/// Takes away a search folder's nodes, that of its updates where it is there.
fn drop_search<D: FolderDesk>(desk: &mut D, search: Nid) -> Result<(), Stop>
    ensures drafts { Drafts (D.view desk.old) (D.view desk.new) result }
    ensures answer { Changes (D.view desk.old) (D.view desk.new) (λ T c. Ok (without_search T search.bits c)) result }
{
    let has_updates = desk.is_taken(updates(search))?;
    drop_nodes(desk, search)?;
    if !has_updates {
        return Ok(());
    }
    desk.put(updates(search), None)
}

/// Removes a search folder in a parent, with its row, and counts the parent anew.
#[tactic(auto, unfolding(crate::specs::Moves::dropping_search))]
fn dropping_search<D: FolderDesk>(
    desk: &mut D,
    search: Nid,
    parent: Nid,
) -> Result<mail_draft::Coming, Stop>
    requires fresh { (D.view desk.old).changed ≡ nothing }
    ensures drafts { Drafts (D.view desk.old) (D.view desk.new) result }
    ensures answer { Comes (D.view desk.old) (D.view desk.new) (λ T c. dropping_search T search.bits parent.bits) result }
{
    let after = without_place(desk.alloc(), desk.places(), search)?;
    drop_search(desk, search)?;
    drop_shown(desk, hierarchy(parent), search)?;
    desk.settle(&after, parent)?;
    moving(desk, after)
}
