//! How the list of a search is built.
ghost use Rattle.std.specs.Prelude.{◌≡◌, [], IfErr, Ok};
ghost use Rattle.mail_draft.specs.Answers.{IsCalm, Says};
ghost use Rattle.mail_draft.specs.Sight.{Answers, Changes, Drafts, Reads};
ghost use Rattle.mail_searches.specs.Building.{built, found_among, found_below, with_found};
ghost use Rattle.search_folders.specs.Pieces.{found_at, found_in};

use mail_draft::{Desk, Stop, contents, message_ids};
use mail_objects::TableNode;
use mail_searches::OwnSearch;
use mapi_values::{Message, Table, put_row};
use pst_base::{Ledger, Nid, Steps};
use restr_eval::eval;
use search_results::{SearchDesk, results_table, with_results};
use std::alloc::Global;

/// Builds the list of a search anew, and counts it.
#[tactic(auto, unfolding(mail_searches::specs::Building::built))]
pub(crate) fn built<D: SearchDesk, L: Ledger>(
    desk: &mut D,
    search: &OwnSearch,
    steps: &mut Steps<L>,
) -> Result<(), Stop>
    ensures drafts { Drafts (D.view desk.old) (D.view desk.new) result }
    ensures answer { Changes (D.view desk.old) (D.view desk.new) (λ T. built T search.now) result }
{
    let node = desk.table(results_table(search.nid))?;
    let parent = node.parent();
    let mut table = without_rows(desk.alloc(), node.into_table());
    find_below(desk, search, &mut table, steps)?;
    with_results(desk, search.nid, TableNode::new(parent, table))
}

/// The table without its rows. Takes no memory.
fn without_rows(alloc: Global, table: Table) -> Table
    ensures { result ≡ record table { rows = [] } }
{
    let Table {
        columns,
        ends,
        rows: _,
        kept,
    } = table;
    Table::from_parts(columns, ends, Vec::new(alloc), kept)
}

/// Gives the table a row of a message, if what the search asks holds of it.
fn put_found<L: Ledger>(
    alloc: Global,
    search: &OwnSearch,
    table: &mut Table,
    id: Nid,
    message: &Message,
    steps: &mut Steps<L>,
) -> Result<(), Stop>
    ensures answer { Says (λ u. table.new.rows) (Ok (with_found search.now table.old.columns id.bits message.now table.old.rows)) result }
    ensures same { record table.new { rows = [] } ≡ record table.old { rows = [] } }
    ensures calm { IfErr result IsCalm }
{
    if !eval(&search.restriction, message, steps) {
        return Ok(());
    }
    Ok(put_row(alloc, table, id.bits, &message.props)?)
}

/// Gives the table a row of the message with this id, if the search finds it.
#[tactic(auto, unfolding(crate::specs::Pieces::found_at))]
fn find_at<D: Desk, L: Ledger>(
    desk: &mut D,
    search: &OwnSearch,
    table: &mut Table,
    id: Nid,
    steps: &mut Steps<L>,
) -> Result<(), Stop>
    ensures reads { Reads (D.view desk.old) (D.view desk.new) result }
    ensures answer { Answers (D.view desk.old) (λ u. table.new.rows) (λ T c. found_at T search.now table.old.columns id.bits table.old.rows) result }
    ensures same { record table.new { rows = [] } ≡ record table.old { rows = [] } }
{
    let mail = desk.message_before(id)?;
    put_found(desk.alloc(), search, table, id, mail.message(), steps)
}

/// Gives the table rows of the messages among these that the search finds. With an `Err` some may have come.
fn find_among<D: Desk, L: Ledger>(
    desk: &mut D,
    search: &OwnSearch,
    table: &mut Table,
    messages: &[u32],
    steps: &mut Steps<L>,
) -> Result<(), Stop>
    ensures reads { Reads (D.view desk.old) (D.view desk.new) result }
    ensures answer { Answers (D.view desk.old) (λ u. table.new.rows) (λ T c. found_among T search.now table.old.columns messages.now table.old.rows) result }
    ensures same { record table.new { rows = [] } ≡ record table.old { rows = [] } }
{
    for message in messages {
        find_at(desk, search, table, Nid { bits: *message }, steps)?;
    }
    Ok(())
}

/// Gives the table rows of the messages that the search finds in this folder, in which it may not look. With an `Err` some may have come.
#[tactic(auto, unfolding(crate::specs::Pieces::found_in))]
fn find_in<D: Desk, L: Ledger>(
    desk: &mut D,
    search: &OwnSearch,
    table: &mut Table,
    folder: Nid,
    steps: &mut Steps<L>,
) -> Result<(), Stop>
    ensures reads { Reads (D.view desk.old) (D.view desk.new) result }
    ensures answer { Answers (D.view desk.old) (λ u. table.new.rows) (λ T c. found_in T search.now table.old.columns folder.bits table.old.rows) result }
    ensures same { record table.new { rows = [] } ≡ record table.old { rows = [] } }
{
    if !search.looks_in(desk.places(), folder) {
        return Ok(());
    }
    let node = desk.table_before(contents(folder))?;
    let messages = message_ids(desk.alloc(), node.table())?;
    find_among(desk, search, table, messages.as_slice(), steps)
}

/// Gives the table a row for each message that the search finds, in whichever folder it looks; each message that is tested is counted in `steps`. With an `Err` some rows may have come: `Stop::Refused` where a folder or a message isn't of its form, `Stop::Memory` where no memory is left, else as the desk stops.
pub fn find_below<D: Desk, L: Ledger>(
    desk: &mut D,
    search: &OwnSearch,
    table: &mut Table,
    steps: &mut Steps<L>,
) -> Result<(), Stop>
    ensures reads { Reads (D.view desk.old) (D.view desk.new) result }
    ensures answer { Answers (D.view desk.old) (λ u. table.new.rows) (λ T c. found_below T search.now table.old.columns T.places table.old.rows) result }
    ensures same { record table.new { rows = [] } ≡ record table.old { rows = [] } }
{
    let places = desk.places().copy(desk.alloc())?;
    for place in places.as_slice() {
        find_in(desk, search, table, place.nid, steps)?;
    }
    Ok(())
}
