//! The nodes of a search, put as they are: where a search is mended they are written with what is changed in them.
ghost use Rattle.std.specs.Prelude.{◌≡◌};
ghost use Rattle.mail_tree.specs.Settling.{context_as_is, table_as_is};
ghost use Rattle.store_session.specs.mail_draft.Sight.{Changes, Drafts};
ghost use Rattle.mail_searches.specs.Searches.{criteria_node};
ghost use Rattle.search_mending.specs.Mending.{listed_as_is, search_as_is, touched_if};

use mail_objects::Object;
use pst_base::{Nid, make_nid};
use store_session::mail_draft::{Desk, Stop, hierarchy};
use store_session::search_results::results_table;

/// The criteria object of a search.
fn criteria_node(search: Nid) -> Nid
    ensures { result.bits ≡ criteria_node search.bits }
{
    make_nid(0x07, search.index())
}

/// Puts the properties at an id as they are.
fn context_as_is<D: Desk>(desk: &mut D, nid: Nid) -> Result<(), Stop>
    ensures drafts { Drafts (D.view desk.old) (D.view desk.new) result }
    ensures answer { Changes (D.view desk.old) (D.view desk.new) (λ T. context_as_is T nid.bits) result }
{
    let context = desk.context(nid)?;
    desk.put(nid, Some(Object::Context(context)))
}

/// Puts the table at an id as it is.
fn table_as_is<D: Desk>(desk: &mut D, nid: Nid) -> Result<(), Stop>
    ensures drafts { Drafts (D.view desk.old) (D.view desk.new) result }
    ensures answer { Changes (D.view desk.old) (D.view desk.new) (λ T. table_as_is T nid.bits) result }
{
    let table = desk.table(nid)?;
    desk.put(nid, Some(Object::Table(table)))
}

/// Puts the table that lists a search folder as it is.
fn listed_as_is<D: Desk>(desk: &mut D, search: Nid) -> Result<(), Stop>
    ensures drafts { Drafts (D.view desk.old) (D.view desk.new) result }
    ensures answer { Changes (D.view desk.old) (D.view desk.new) (λ T. listed_as_is T search.bits) result }
{
    let context = desk.context(search)?;
    table_as_is(desk, hierarchy(context.parent()))
}

/// Puts the nodes of a search as they are: its values, its criteria object, its list, and the table that lists it. What the draft has of them already stays.
fn search_as_is<D: Desk>(desk: &mut D, search: Nid) -> Result<(), Stop>
    ensures drafts { Drafts (D.view desk.old) (D.view desk.new) result }
    ensures answer { Changes (D.view desk.old) (D.view desk.new) (λ T. search_as_is T search.bits) result }
{
    context_as_is(desk, search)?;
    context_as_is(desk, criteria_node(search))?;
    table_as_is(desk, results_table(search))?;
    listed_as_is(desk, search)
}

/// The same where the search is mended; else the draft stays.
pub(crate) fn touched_if<D: Desk>(desk: &mut D, search: Nid, is_mended: bool) -> Result<(), Stop>
    ensures drafts { Drafts (D.view desk.old) (D.view desk.new) result }
    ensures answer { Changes (D.view desk.old) (D.view desk.new) (λ T. touched_if is_mended T search.bits) result }
{
    if !is_mended {
        return Ok(());
    }
    search_as_is(desk, search)
}
