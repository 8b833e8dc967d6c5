//! `ls` where there are searches.
ghost use Rattle.std.specs.Prelude.{◌≡◌, [], map, IfOk};
ghost use Rattle.command_text.specs.declared.reply.DataLine.TheVariants.{Foreign};
ghost use Rattle.mail_tree.specs.Changing.{Changed, nothing};
ghost use Rattle.mail_tree.specs.Tree.{Tree};
ghost use Rattle.mail_draft.specs.Desks.{Comes, coming_of};
ghost use Rattle.mail_draft.specs.Sight.{Answers, Reads};
ghost use Rattle.mail_searches.specs.Criteria.{marked, marked_line, search_listing};
ghost use Rattle.mail_searches.specs.Step.{listing_in};
ghost use Rattle.search_folders.specs.Comings.{ComesAmong};
ghost use Rattle.search_folders.specs.Pieces.{listing_where, named_line, named_lines, stays_after};

use crate::coming::Coming;
use command_text::{DataLine, DataLines, Reply};
use mail_draft::Stop;
use mail_folders::on_desk::line_of_message;
use mail_folders::{FolderDesk, listed};
use mail_searches::{KnownSearches, OwnFolders};
use mapi_values::{Props, Units};
use pst_base::Nid;
use search_results::{is_message, results_table};
use std::alloc::{AllocError, Global};

/// Lists what is in a folder: of an own search folder the messages that its rows name, and in any other one own search folders as such. The refusal: `Object`.
pub fn list_folder<D: FolderDesk>(
    desk: &mut D,
    searches: &KnownSearches,
    folder: Nid,
) -> Result<Coming, Stop>
    requires fresh { (D.view desk.old).changed ≡ nothing }
    ensures reads { Reads (D.view desk.old) (D.view desk.new) result }
    ensures answer { ComesAmong (D.view desk.old) (D.view desk.new) searches.now (λ X. stays_after X (listing_in X folder.bits)) result }
{
    let tree = listing_where(desk, &searches.own, folder)?;
    Ok(Coming::staying(tree))
}

/// What is listed of a folder, where these search folders are own.
#[tactic(auto, unfolding(crate::specs::Pieces::listing_where))]
fn listing_where<D: FolderDesk>(
    desk: &mut D,
    own: &OwnFolders,
    folder: Nid,
) -> Result<mail_draft::Coming, Stop>
    requires fresh { (D.view desk.old).changed ≡ nothing }
    ensures reads { Reads (D.view desk.old) (D.view desk.new) result }
    ensures answer { Comes (D.view desk.old) (D.view desk.new) (λ T c. listing_where T own.now folder.bits) result }
{
    if own.contains(folder) {
        return search_listing(desk, folder);
    }
    let listing = mail_folders::on_desk::list_folder(desk, folder)?;
    Ok(with_marks(desk.alloc(), own, listing)?)
}

/// What is listed of a search: the messages that its rows name.
#[tactic(auto, unfolding(mail_searches::specs::Criteria::search_listing))]
fn search_listing<D: FolderDesk>(desk: &mut D, search: Nid) -> Result<mail_draft::Coming, Stop>
    requires fresh { (D.view desk.old).changed ≡ nothing }
    ensures reads { Reads (D.view desk.old) (D.view desk.new) result }
    ensures answer { Comes (D.view desk.old) (D.view desk.new) (λ T c. search_listing T search.bits) result }
{
    let node = desk.table_before(results_table(search))?;
    let lines = named_lines(desk, node.table().rows())?;
    Ok(mail_draft::Coming::replied(listed(lines)))
}

/// The lines of the messages that these rows name.
fn named_lines<D: FolderDesk>(desk: &mut D, rows: &[(u32, Props)]) -> Result<Vec<DataLine>, Stop>
    ensures reads { Reads (D.view desk.old) (D.view desk.new) result }
    ensures answer { Answers (D.view desk.old) (λ lines. lines.items) (λ T c. named_lines T [] rows.now) result }
{
    let mut lines = Vec::new(desk.alloc());
    for row in rows {
        lines = named_line(desk, lines, Nid { bits: row.0 })?;
    }
    Ok(lines)
}

/// The lines so far, with that of the message with this id, if there is one. The lines are lost with an `Err`.
#[tactic(auto, unfolding(crate::specs::Pieces::named_line))]
fn named_line<D: FolderDesk>(
    desk: &mut D,
    mut lines: Vec<DataLine>,
    id: Nid,
) -> Result<Vec<DataLine>, Stop>
    ensures reads { Reads (D.view desk.old) (D.view desk.new) result }
    ensures answer { Answers (D.view desk.old) (λ lines. lines.items) (λ T c. named_line T lines.items id.bits) result }
{
    if !is_message(desk, id)? {
        return Ok(lines);
    }
    let line = line_of_message(desk, id.bits)?;
    lines.push(line)?;
    Ok(lines)
}

/// What a listing comes to, with own search folders as such.
fn with_marks(
    alloc: Global,
    own: &OwnFolders,
    listing: mail_draft::Coming,
) -> Result<mail_draft::Coming, AllocError>
    ensures { IfOk result (λ c. (T : Tree) (D : Changed) → coming_of T D c ≡ record (coming_of T D listing) { reply = marked own.now listing.reply }) }
{
    let mail_draft::Coming {
        places,
        last,
        reply,
    } = listing;
    let reply = marked(alloc, own, reply)?;
    Ok(mail_draft::Coming {
        places,
        last,
        reply,
    })
}

/// The reply of a folder's listing.
fn marked(alloc: Global, own: &OwnFolders, reply: Reply) -> Result<Reply, AllocError>
    ensures { IfOk result (λ r. r ≡ marked own.now reply) }
{
    let Reply { lines, last } = reply;
    let lines = marked_lines(alloc, own, lines.into_vec())?;
    Ok(Reply {
        lines: DataLines::from_vec(lines),
        last,
    })
}

/// The lines of a folder's listing.
fn marked_lines(
    alloc: Global,
    own: &OwnFolders,
    lines: Vec<DataLine>,
) -> Result<Vec<DataLine>, AllocError>
    ensures { IfOk result (λ marked. marked.items ≡ map (marked_line own.now) lines.items) }
{
    lines
        .into_iter()
        .map(|line| marked_line(own, line))
        .collect(alloc)
}

/// A line of a folder's listing.
fn marked_line(own: &OwnFolders, line: DataLine) -> DataLine
    ensures { result ≡ marked_line own.now line }
{
    match line {
        DataLine::Foreign { id, name } => foreign_line(own, id, name),
        _ => line,
    }
}

/// The line of a search folder, which may be own.
fn foreign_line(own: &OwnFolders, id: Nid, name: Units) -> DataLine
    ensures { result ≡ marked_line own.now (Foreign id name) }
{
    if own.contains(id) {
        DataLine::Search { id, name }
    } else {
        DataLine::Foreign { id, name }
    }
}
