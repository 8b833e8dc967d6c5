//! `ls`
ghost use Rattle.std.specs.Prelude.{◌≡◌, ℕ, Bool, filter, IfErr, IfOk, Ok, Some};
ghost use Rattle.mapi_values.specs.Messages.{Mes};
ghost use Rattle.mail_draft.specs.content_glance.Glances.{IsTold};
ghost use Rattle.mail_tree.specs.Folders.{listed, listing};
ghost use Rattle.mail_folders.specs.Pieces.{TellsOf, each, ids_in, line_of_folder, line_of_message, line_named, lines_in, lines_of_children, lines_of_messages, message_line, plain_listing, read_subject, with_messages};
ghost use Rattle.mail_tree.specs.Places.{is_child};
ghost use Rattle.mail_tree.specs.Changing.{nothing};
ghost use Rattle.mail_tree.specs.Values.{number_of, text_of};
ghost use Rattle.mail_draft.specs.Answers.{IsCalm, IsCaused, Says};
ghost use Rattle.mail_draft.specs.Desks.{Comes};
ghost use Rattle.mail_draft.specs.Glancing.{IsContent};
ghost use Rattle.mail_draft.specs.Sight.{Answers, Reads};

use crate::finding::folder_in;
use crate::names::{is_child, name_in};
use command_text::{DataLine, DataLines, LastLine, Reply};
use mail_draft::content_glance::Glance;
use mail_draft::{
    Coming, Desk, Stop, contents, glance_of, message_ids, number_told, text_of, text_told,
};
use mail_tree::{FolderPlace, Places, Sort};
use mapi_values::tags::{PID_TAG_MESSAGE_SIZE, PID_TAG_SUBJECT};
use mapi_values::{Props, Units};
use node_port::NodeRec;
use pst_base::Nid;
use std::alloc::{AllocError, Global};

/// Lists the folders and then the messages in a folder. Refused where it isn't there.
pub fn list_folder<D: Desk>(desk: &mut D, folder: Nid) -> Result<Coming, Stop>
    requires fresh { (D.view desk.old).changed ≡ nothing }
    ensures reads { Reads (D.view desk.old) (D.view desk.new) result }
    ensures answer { Comes (D.view desk.old) (D.view desk.new) (λ T c. listing T folder.bits) result }
{
    let place = folder_in(desk.places(), folder)?;
    match place.sort {
        Sort::Plain => plain_listing(desk, folder),
        Sort::Foreign => Ok(Coming::replied(listed(Vec::new(desk.alloc())))),
    }
}

/// A reply of lines of data and their number.
pub fn listed(lines: Vec<DataLine>) -> Reply
    ensures { result ≡ listed lines.items }
{
    let count = lines.len() as u64;
    Reply {
        lines: DataLines::from_vec(lines),
        last: LastLine::Count(count),
    }
}

/// What is listed of a plain folder.
fn plain_listing<D: Desk>(desk: &mut D, folder: Nid) -> Result<Coming, Stop>
    requires fresh { (D.view desk.old).changed ≡ nothing }
    ensures reads { Reads (D.view desk.old) (D.view desk.new) result }
    ensures answer { Comes (D.view desk.old) (D.view desk.new) (λ T c. plain_listing T folder.bits) result }
{
    let lines = lines_in(desk, folder)?;
    Ok(Coming::replied(listed(lines)))
}

/// The lines of the folders and of the messages in a folder.
fn lines_in<D: Desk>(desk: &mut D, folder: Nid) -> Result<Vec<DataLine>, Stop>
    ensures reads { Reads (D.view desk.old) (D.view desk.new) result }
    ensures answer { Answers (D.view desk.old) (λ lines. lines.items) (λ T c. lines_in T folder.bits) result }
{
    let lines = child_lines(desk, folder)?;
    with_messages(desk, folder, lines)
}

/// The lines of the folders directly in a folder.
fn child_lines<D: Desk>(desk: &mut D, folder: Nid) -> Result<Vec<DataLine>, Stop>
    ensures reads { Reads (D.view desk.old) (D.view desk.new) result }
    ensures answer { Answers (D.view desk.old) (λ lines. lines.items) (λ T c. lines_of_children T folder.bits) result }
{
    let child_places = places_in(desk.alloc(), desk.places(), folder)?;
    folder_lines(desk, child_places.as_slice())
}

/// These lines, and behind them those of the messages in a folder.
fn with_messages<D: Desk>(
    desk: &mut D,
    folder: Nid,
    mut lines: Vec<DataLine>,
) -> Result<Vec<DataLine>, Stop>
    ensures reads { Reads (D.view desk.old) (D.view desk.new) result }
    ensures answer { Answers (D.view desk.old) (λ lines. lines.items) (λ T c. with_messages T folder.bits lines.items) result }
{
    let mut messages = lines_of_messages(desk, folder)?;
    lines.append(&mut messages)?;
    Ok(lines)
}

/// The lines of the messages in a folder.
fn lines_of_messages<D: Desk>(desk: &mut D, folder: Nid) -> Result<Vec<DataLine>, Stop>
    ensures reads { Reads (D.view desk.old) (D.view desk.new) result }
    ensures answer { Answers (D.view desk.old) (λ lines. lines.items) (λ T c. lines_of_messages T folder.bits) result }
{
    let ids = ids_in(desk, folder)?;
    message_lines(desk, ids.as_slice())
}

/// The ids of the messages in a folder.
fn ids_in<D: Desk>(desk: &mut D, folder: Nid) -> Result<Vec<u32>, Stop>
    ensures reads { Reads (D.view desk.old) (D.view desk.new) result }
    ensures answer { Answers (D.view desk.old) (λ ids. ids.items) (λ T c. ids_in T folder.bits) result }
{
    let table = desk.table_before(contents(folder))?;
    Ok(message_ids(desk.alloc(), table.table())?)
}

/// The places of the folders directly in a folder.
fn places_in(alloc: Global, places: &Places, folder: Nid) -> Result<Vec<FolderPlace>, AllocError>
    ensures { IfOk result (λ found. found.items ≡ filter (is_child folder.bits) places.now) }
{
    places
        .as_slice()
        .iter()
        .copied()
        .filter(|place| is_child(folder, place))
        .collect(alloc)
}

/// The line of a folder with this name.
fn line_named(place: FolderPlace, name: Units) -> DataLine
    ensures { result ≡ line_named place name }
{
    let id = place.nid;
    match place.sort {
        Sort::Plain => DataLine::Folder { id, name },
        Sort::Foreign => DataLine::Foreign { id, name },
    }
}

/// The line of a folder.
fn line_of_folder<D: Desk>(desk: &mut D, place: FolderPlace) -> Result<DataLine, Stop>
    ensures reads { Reads (D.view desk.old) (D.view desk.new) result }
    ensures answer { Answers (D.view desk.old) (λ line. line) (λ T c. line_of_folder T place) result }
{
    let name = name_in(desk, place.nid)?;
    Ok(line_named(place, name))
}

/// The subject among a message's properties.
fn subject_held(alloc: Global, props: &Props) -> Result<Units, Stop>
    ensures answer { Says (λ units. units) (Ok (text_of 0x0037 props.now)) result }
    ensures calm { IfErr result IsCalm }
{
    Ok(text_of(alloc, props, PID_TAG_SUBJECT.id)?)
}

/// The subject of a message, of the whole message.
fn read_subject<D: Desk>(desk: &mut D, id: Nid) -> Result<Units, Stop>
    ensures reads { Reads (D.view desk.old) (D.view desk.new) result }
    ensures answer { Answers (D.view desk.old) (λ units. units) (λ T c. read_subject T id.bits) result }
{
    let mail = desk.message_before(id)?;
    subject_held(desk.alloc(), &mail.message().props)
}

/// The subject of a message whose node tells this of it. The whole message is read only where its subject stands in a subnode.
fn subject_of<D: Desk>(desk: &mut D, id: Nid, subject: &Glance) -> Result<Units, Stop>
    ensures reads { Reads (D.view desk.old) (D.view desk.new) result }
    ensures answer { TellsOf (D.view desk.old) id.bits (λ M. IsTold 0x0037 M.props (Some subject.now)) (λ M. text_of 0x0037 M.props) (λ units. units) result }
{
    match text_told(desk.alloc(), subject)? {
        Some(told) => Ok(told),
        None => read_subject(desk, id),
    }
}

/// The subject of a message whose node this is.
fn subject_in<D: Desk>(desk: &mut D, id: Nid, node: &NodeRec) -> Result<Units, Stop>
    ensures reads { Reads (D.view desk.old) (D.view desk.new) result }
    ensures answer { TellsOf (D.view desk.old) id.bits (IsContent node.now) (λ M. text_of 0x0037 M.props) (λ units. units) result }
{
    let told = glance_of(desk.alloc(), node, PID_TAG_SUBJECT.id)?;
    subject_of(desk, id, &told)
}

/// What a message whose node this is tells of its size.
fn size_in(alloc: Global, node: &NodeRec) -> Result<u32, Stop>
    ensures answer { (M : Mes) → IsContent node.now M → Says (λ n. n) (Ok (number_of 0x0E08 M.props)) result }
    ensures cause { (disk : Bool) (before after : ℕ) → IfErr result (IsCaused disk before after) }
{
    let told = glance_of(alloc, node, PID_TAG_MESSAGE_SIZE.id)?;
    Ok(number_told(&told))
}

/// The line of a message whose node this is.
fn line_in<D: Desk>(desk: &mut D, id: Nid, node: &NodeRec) -> Result<DataLine, Stop>
    ensures reads { Reads (D.view desk.old) (D.view desk.new) result }
    ensures answer { TellsOf (D.view desk.old) id.bits (IsContent node.now) (message_line id.bits) (λ line. line) result }
{
    let size = size_in(desk.alloc(), node)?;
    let subject = subject_in(desk, id, node)?;
    Ok(DataLine::Message { id, size, subject })
}

/// The line of a message: what it tells of its size, and its subject.
pub fn line_of_message<D: Desk>(desk: &mut D, message: u32) -> Result<DataLine, Stop>
    ensures reads { Reads (D.view desk.old) (D.view desk.new) result }
    ensures answer { Answers (D.view desk.old) (λ line. line) (λ T c. line_of_message T message) result }
{
    let id = Nid { bits: message };
    let node = desk.content_before(id)?;
    line_in(desk, id, &node)
}

/// The lines of folders.
fn folder_lines<D: Desk>(desk: &mut D, places: &[FolderPlace]) -> Result<Vec<DataLine>, Stop>
    ensures reads { Reads (D.view desk.old) (D.view desk.new) result }
    ensures answer { Answers (D.view desk.old) (λ lines. lines.items) (λ T c. each (line_of_folder T) places.now) result }
{
    let mut lines = Vec::new(desk.alloc());
    for place in places {
        let line = line_of_folder(desk, *place)?;
        lines.push(line)?;
    }
    Ok(lines)
}

/// The lines of messages.
fn message_lines<D: Desk>(desk: &mut D, messages: &[u32]) -> Result<Vec<DataLine>, Stop>
    ensures reads { Reads (D.view desk.old) (D.view desk.new) result }
    ensures answer { Answers (D.view desk.old) (λ lines. lines.items) (λ T c. each (line_of_message T) messages.now) result }
{
    let mut lines = Vec::new(desk.alloc());
    for message in messages {
        let line = line_of_message(desk, *message)?;
        lines.push(line)?;
    }
    Ok(lines)
}
