//! `mksearch`
ghost use Rattle.std.specs.Prelude.{◌≡◌, [], IfOk, Ok, Some};
ghost use Rattle.search_obj.specs.Changing.{unset};
ghost use Rattle.search_obj.specs.Writing.{written};
ghost use Rattle.mail_tree.specs.Changing.{nothing, with_object};
ghost use Rattle.mail_tree.specs.Columns.{contents_table};
ghost use Rattle.mail_tree.specs.Folders.{nid};
ghost use Rattle.mail_objects.specs.declared.object.Object.TheVariants.{Bare, Table};
ghost use Rattle.mail_draft.specs.Desks.{Comes};
ghost use Rattle.mail_draft.specs.Sight.{Answers, Changes, Drafts, Reads};
ghost use Rattle.mail_searches.specs.Searches.{criteria_node, results, updates};
ghost use Rattle.mail_searches.specs.Criteria.{made_search, making_search, no_criteria, with_search};
ghost use Rattle.search_folders.specs.Comings.{ComesAmong};
ghost use Rattle.search_folders.specs.Pieces.{added_search, adding_search, unless_refused, with_nodes};

use crate::coming::Coming;
use crate::indexes::next_search_index;
use crate::nodes::{criteria_node, updates};
use crate::places::with_place;
use mail_draft::on_desk::{add_shown, making};
use mail_draft::{CountingDesk, Desk, Stop, hierarchy, new_id};
use mail_folders::on_desk::{unless_child_named, unless_full};
use mail_folders::{FolderDesk, folder_props, plain_in, unless_deep};
use mail_objects::{Context, Object};
use mail_searches::KnownSearches;
use mail_tree::{Places, contents_table};
use mapi_values::{Props, Units};
use pst_base::{Nid, Subs};
use search_obj::{Criteria, write_search};
use search_results::results_table;
use std::alloc::{AllocError, Global};

/// A new search folder without criteria in a parent. The refusals: `Object`, `Reserved`, `NameTaken`, `Limit`, `Ids`, each where `mksearch` says so.
#[tactic(auto, unfolding(mail_searches::specs::Criteria::made_search))]
pub fn make_search<D: FolderDesk + CountingDesk>(
    desk: &mut D,
    searches: &KnownSearches,
    parent: Nid,
    name: &Units,
) -> Result<Coming, Stop>
    requires fresh { (D.view desk.old).changed ≡ nothing }
    ensures drafts { Drafts (D.view desk.old) (D.view desk.new) result }
    ensures answer { ComesAmong (D.view desk.old) (D.view desk.new) searches.now (λ X. made_search X parent.bits name.now) result }
{
    unless_refused(desk, parent, name)?;
    let index = next_search_index(desk)?;
    let own = searches.own.with(desk.alloc(), new_id(3, index))?;
    let tree = making_search(desk, parent, name, index)?;
    Ok(Coming {
        tree,
        own: Some(own),
        searches: None,
    })
}

/// Refused where the parent isn't there or isn't plain, a folder in it has the name, a folder in it would stand below more than 64 others, or its table of folders is full.
#[tactic(auto, unfolding(crate::specs::Pieces::unless_refused))]
fn unless_refused<D: FolderDesk>(desk: &mut D, parent: Nid, name: &Units) -> Result<(), Stop>
    ensures reads { Reads (D.view desk.old) (D.view desk.new) result }
    ensures answer { Answers (D.view desk.old) (λ u. u) (λ T c. unless_refused T parent.bits name.now) result }
{
    let _place = plain_in(desk.places(), parent)?;
    unless_child_named(desk, parent, name)?;
    unless_deep(desk.alloc(), desk.places(), parent)?;
    unless_full(desk, hierarchy(parent))
}

/// The values of a criteria object without criteria.
fn unset_props(alloc: Global) -> Result<Props, AllocError>
    ensures { IfOk result (λ p. p ≡ written unset []) }
{
    write_search(alloc, Props::new(alloc), &Criteria::unset())
}

/// Puts the node of a new search's updates.
fn put_updates<D: Desk>(desk: &mut D, search: Nid) -> Result<(), Stop>
    ensures drafts { Drafts (D.view desk.old) (D.view desk.new) result }
    ensures answer { Changes (D.view desk.old) (D.view desk.new) (λ T c. Ok (with_object (updates search.bits) (Some (Bare (nid 0))) c)) result }
{
    desk.put(updates(search), Some(Object::Bare(Nid { bits: 0 })))
}

/// Puts the criteria object of a new search, which says none.
fn put_criteria<D: Desk>(desk: &mut D, search: Nid) -> Result<(), Stop>
    ensures drafts { Drafts (D.view desk.old) (D.view desk.new) result }
    ensures answer { Changes (D.view desk.old) (D.view desk.new) (λ T c. Ok (with_object (criteria_node search.bits) (Some no_criteria) c)) result }
{
    let props = unset_props(desk.alloc())?;
    let criteria = Context::new(Nid { bits: 0 }, props, Subs::new(desk.alloc()));
    desk.put(criteria_node(search), Some(Object::Context(criteria)))
}

/// Puts the list of a new search, which is empty.
fn put_list<D: Desk>(desk: &mut D, search: Nid) -> Result<(), Stop>
    ensures drafts { Drafts (D.view desk.old) (D.view desk.new) result }
    ensures answer { Changes (D.view desk.old) (D.view desk.new) (λ T c. Ok (with_object (results search.bits) (Some (Table contents_table)) c)) result }
{
    let table = contents_table(desk.alloc())?;
    desk.put(results_table(search), Some(Object::Table(table)))
}

/// Puts the nodes that a new search has beside its folder: that of its updates, its criteria object, and its list.
fn put_nodes<D: Desk>(desk: &mut D, search: Nid) -> Result<(), Stop>
    ensures drafts { Drafts (D.view desk.old) (D.view desk.new) result }
    ensures answer { Changes (D.view desk.old) (D.view desk.new) (λ T c. Ok (with_nodes search.bits c)) result }
{
    put_updates(desk, search)?;
    put_criteria(desk, search)?;
    put_list(desk, search)
}

/// Puts the nodes of a new search.
fn put_search<D: Desk>(desk: &mut D, search: Nid, parent: Nid, name: &Units) -> Result<(), Stop>
    ensures drafts { Drafts (D.view desk.old) (D.view desk.new) result }
    ensures answer { Changes (D.view desk.old) (D.view desk.new) (λ T c. Ok (with_search search.bits parent.bits name.now c)) result }
{
    let props = folder_props(desk.alloc(), name)?;
    let context = Context::new(parent, props, Subs::new(desk.alloc()));
    desk.put(search, Some(Object::Context(context)))?;
    put_nodes(desk, search)
}

/// Puts a new search, and its row in its parent's table.
fn add_search<D: Desk>(desk: &mut D, search: Nid, parent: Nid, name: &Units) -> Result<(), Stop>
    ensures drafts { Drafts (D.view desk.old) (D.view desk.new) result }
    ensures answer { Changes (D.view desk.old) (D.view desk.new) (λ T. adding_search T search.bits parent.bits name.now) result }
{
    let props = folder_props(desk.alloc(), name)?;
    put_search(desk, search, parent, name)?;
    add_shown(desk, hierarchy(parent), search, &props)
}

/// Puts a new search and its row, and counts its parent anew. The folders then stand at these places.
#[tactic(auto, unfolding(crate::specs::Pieces::added_search))]
fn added_search<D: FolderDesk>(
    desk: &mut D,
    places: &Places,
    search: Nid,
    parent: Nid,
    name: &Units,
) -> Result<(), Stop>
    requires fresh { (D.view desk.old).changed ≡ nothing }
    ensures drafts { Drafts (D.view desk.old) (D.view desk.new) result }
    ensures answer { Changes (D.view desk.old) (D.view desk.new) (λ T c. added_search T search.bits parent.bits name.now places.now) result }
{
    add_search(desk, search, parent, name)?;
    desk.settle(places, parent)
}

/// Makes the search of this index: its nodes, its row, and its parent's counts.
#[tactic(auto, unfolding(mail_searches::specs::Criteria::making_search))]
fn making_search<D: FolderDesk + CountingDesk>(
    desk: &mut D,
    parent: Nid,
    name: &Units,
    index: u64,
) -> Result<mail_draft::Coming, Stop>
    requires fresh { (D.view desk.old).changed ≡ nothing }
    ensures drafts { Drafts (D.view desk.old) (D.view desk.new) result }
    ensures answer { Comes (D.view desk.old) (D.view desk.new) (λ T c. making_search T parent.bits name.now index) result }
{
    let search = new_id(3, index);
    let after = with_place(desk.alloc(), desk.places(), search, parent)?;
    added_search(desk, &after, search, parent, name)?;
    making(desk, Some(after), 3, index)
}
