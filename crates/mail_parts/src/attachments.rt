//! `attach`, `detach` and `fetch`
ghost use Rattle.std.specs.Prelude.{◌≡◌, IfErr, IfOk, if◌then◌else◌, None, Some};
ghost use Rattle.command_text.specs.declared.reply.CommandRefusal.TheVariants as refusal;
ghost use Rattle.command_text.specs.declared.reply.Limit.TheVariants as limit;
ghost use Rattle.command_text.specs.declared.reply.LastLine.TheVariants as last;
ghost use Rattle.mail_tree.specs.Changing.{nothing, refused_if};
ghost use Rattle.mail_tree.specs.Folders.{unchanged};
ghost use Rattle.mail_tree.specs.Messages.{added_attachment, fetched_data, removed_attachment, spent_index};
ghost use Rattle.mail_tree.specs.Parts.{attachment_tags, data_tag, is_full, is_wide, next_part, part_nid, new_part, room_for, with_attachment};
ghost use Rattle.mail_tree.specs.Tree.{Tree};
ghost use Rattle.mail_draft.specs.Answers.{IsCalm, Says};
ghost use Rattle.mail_draft.specs.Desks.{Comes};
ghost use Rattle.mail_draft.specs.Sight.{Drafts, Reads};
ghost use Rattle.mail_messages.specs.Parts.{telling_value};
ghost use Rattle.mail_parts.specs.Pieces.{attaching, attaching_to, detaching, telling_data};

use crate::part_ids::next_part;
use crate::part_places::part_in;
use crate::part_values::{attachment_props, held_subnodes};
use crate::with_attachments::{LAST_INDEX, room_for, take_attachment, with_part, with_table};
use command_text::{CommandRefusal, Held, LastLine, Limit, Reply};
use mail_draft::{Coming, Desk, Stop, new_id};
use mail_messages::on_desk::{message_in, remake_message};
use mail_messages::{Ending, rows_of, tell_value};
use mail_objects::Mail;
use mapi_values::tags::PID_TAG_ATTACH_DATA_BINARY;
use mapi_values::{Part, Props, Units};
use pst_base::Nid;
use std::alloc::{AllocError, Global};

/// How many rows a command may bring a table of attachments to.
const MOST_ROWS: usize = 100_000;

/// How a command ends that gives a message an attachment of this index, which may be past the last one.
fn attachment_ending(index: u64) -> Ending
    ensures reason { result.reason ≡ spent_index index }
    ensures last { result.last ≡ last.Attached (part_nid index) }
{
    let reason = if index > LAST_INDEX {
        Some(CommandRefusal::Ids)
    } else {
        None
    };
    Ending {
        reason,
        last: LastLine::Attached(new_id(5, index)),
    }
}

/// A new attachment of this index and name that holds this. An `Err` says that memory ran out, or that the data or the name is too long for a value.
fn new_part(alloc: Global, index: u64, name: &Units, held: &Held) -> Result<Part, AllocError>
    ensures { IfOk result (λ part. part ≡ new_part (part_nid index) name.now held.now) }
{
    Ok(Part {
        nid: new_id(5, index),
        props: attachment_props(alloc, name, held)?,
        kept: held_subnodes(alloc, held)?,
    })
}

/// The message with an attachment of the next index and this name that holds this; `None` where its table would have more than 255 columns. It is lost with an `Err`, which says that memory ran out, or that the data or the name is too long for a value.
pub fn with_attachment(
    alloc: Global,
    mail: Mail,
    index: u64,
    name: &Units,
    held: &Held,
) -> Result<Option<Mail>, AllocError>
    requires { index ≡ next_part mail }
    ensures { IfOk result (λ m. m ≡ (if is_wide attachment_tags mail.attachments then None else Some (with_attachment (new_part (part_nid index) name.now held.now) (room_for index mail)))) }
{
    let part = new_part(alloc, index, name, held)?;
    let room = room_for(alloc, index, mail);
    let tabled = with_table(alloc, room)?;
    match tabled {
        Some(mail) => Ok(Some(with_part(alloc, mail, part)?)),
        None => Ok(None),
    }
}

/// Gives a message an attachment of this name that holds this. Refused where its table would have too many columns.
fn attach_to<D: Desk>(desk: &mut D, mail: Mail, name: &Units, held: &Held) -> Result<Coming, Stop>
    requires fresh { (D.view desk.old).changed ≡ nothing }
    ensures drafts { Drafts (D.view desk.old) (D.view desk.new) result }
    ensures answer { Comes (D.view desk.old) (D.view desk.new) (λ T c. attaching_to T mail name.now held.now) result }
{
    let index = next_part(&mail);
    let added = with_attachment(desk.alloc(), mail, index, name, held)?;
    match added {
        Some(mail) => remake_message(desk, mail, attachment_ending(index)),
        None => Err(Stop::Refused(CommandRefusal::Limit(Limit::Rows))),
    }
}

/// Checks that a message may get another attachment.
fn check_room(mail: &Mail) -> Result<(), Stop>
    ensures answer { Says (λ u. u) (refused_if (is_full mail.now.attachments) (refusal.Limit limit.Rows)) result }
    ensures cause { IfErr result IsCalm }
{
    if rows_of(&mail.message().attachments).len() >= MOST_ROWS {
        return Err(Stop::Refused(CommandRefusal::Limit(Limit::Rows)));
    }
    Ok(())
}

/// Gives a message an attachment of this name that holds this.
fn attach_one<D: Desk>(desk: &mut D, mail: Mail, name: &Units, held: &Held) -> Result<Coming, Stop>
    requires fresh { (D.view desk.old).changed ≡ nothing }
    ensures drafts { Drafts (D.view desk.old) (D.view desk.new) result }
    ensures answer { Comes (D.view desk.old) (D.view desk.new) (λ T c. attaching T mail name.now held.now) result }
{
    check_room(&mail)?;
    attach_to(desk, mail, name, held)
}

/// Gives a message an attachment with a file name that holds data or a message, under the id whose index follows the greatest of its subnodes of that kind. Refused, in this order: the message isn't there (`Object`), its table of attachments would have too many rows or columns (`Limit(Rows)`), an object would have too many values (`Limit(Properties)`), no index is left (`Ids`).
pub fn attach<D: Desk>(
    desk: &mut D,
    message: Nid,
    name: &Units,
    held: &Held,
) -> Result<Coming, Stop>
    requires fresh { (D.view desk.old).changed ≡ nothing }
    ensures drafts { Drafts (D.view desk.old) (D.view desk.new) result }
    ensures answer { Comes (D.view desk.old) (D.view desk.new) (λ T c. added_attachment T message.bits name.now held.now) result }
{
    let mail = message_in(desk, message)?;
    attach_one(desk, mail, name, held)
}

/// Removes the attachment with this id from a message.
fn detach_one<D: Desk>(desk: &mut D, mail: Mail, attachment: Nid) -> Result<Coming, Stop>
    requires fresh { (D.view desk.old).changed ≡ nothing }
    ensures drafts { Drafts (D.view desk.old) (D.view desk.new) result }
    ensures answer { Comes (D.view desk.old) (D.view desk.new) (λ T c. detaching T attachment.bits mail) result }
{
    match take_attachment(mail, attachment) {
        Some(taken) => remake_message(desk, taken.0, Ending::done()),
        None => Err(Stop::Refused(CommandRefusal::Object)),
    }
}

/// Removes the attachment with this id from a message. Refused where the message isn't there, or has none with it.
pub fn detach<D: Desk>(desk: &mut D, message: Nid, attachment: Nid) -> Result<Coming, Stop>
    requires fresh { (D.view desk.old).changed ≡ nothing }
    ensures drafts { Drafts (D.view desk.old) (D.view desk.new) result }
    ensures answer { Comes (D.view desk.old) (D.view desk.new) (λ T c. removed_attachment T message.bits attachment.bits) result }
{
    let mail = message_in(desk, message)?;
    detach_one(desk, mail, attachment)
}

/// The data of an attachment of these values as a reply. Refused where there is none.
fn value_reply(alloc: Global, props: &Props) -> Result<Reply, Stop>
    ensures answer { (T : Tree) → Says (unchanged T) (telling_value T data_tag props.now) result }
    ensures cause { IfErr result IsCalm }
{
    let told = tell_value(alloc, props, PID_TAG_ATTACH_DATA_BINARY)?;
    Ok(told.reply)
}

/// The data of the attachment with this id as a reply. Refused where there is no such attachment, or it has none.
fn data_reply(alloc: Global, mail: &Mail, attachment: Nid) -> Result<Reply, Stop>
    ensures answer { (T : Tree) → Says (unchanged T) (telling_data T attachment.bits mail.now) result }
    ensures cause { IfErr result IsCalm }
{
    match part_in(mail, attachment) {
        Some(part) => value_reply(alloc, &part.props),
        None => Err(Stop::Refused(CommandRefusal::Object)),
    }
}

/// The data of the attachment with this id. Refused where the message isn't there or has no such attachment (`Object`), or it has no data (`Property`).
pub fn fetch<D: Desk>(desk: &mut D, message: Nid, attachment: Nid) -> Result<Coming, Stop>
    requires fresh { (D.view desk.old).changed ≡ nothing }
    ensures reads { Reads (D.view desk.old) (D.view desk.new) result }
    ensures answer { Comes (D.view desk.old) (D.view desk.new) (λ T c. fetched_data T message.bits attachment.bits) result }
{
    let mail = message_in(desk, message)?;
    let reply = data_reply(desk.alloc(), &mail, attachment)?;
    Ok(Coming::replied(reply))
}
