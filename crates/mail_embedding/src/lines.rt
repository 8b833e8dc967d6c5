//! The lines on messages in attachments, over a desk.
ghost use Rattle.command_text.specs.declared.embedded.EmbeddedCommand.TheVariants as lines;
ghost use Rattle.mail_tree.specs.Whole.{IsWhole};
ghost use Rattle.mail_parts.specs.mail_draft.Sight.{IsAbout, Reads};
ghost use Rattle.mail_embedding.specs.Meant.{Means};

use crate::embed::embed;
use crate::inside::message_inside;
use crate::meaning::Meaning;
use crate::putting::{replaced, set_inside, unset_inside};
use command_text::EmbeddedCommand;
use mail_parts::mail_draft::{Desk, Stop};
use mail_parts::mail_messages::{details_reply, reply_of};
use mapi_values::{Tag, Value};
use pst_base::Nid;

/// `eprops`
fn list<D: Desk>(desk: &mut D, message: Nid, attachment: Nid) -> Result<Meaning, Stop>
    ensures reads { Reads (D.view desk.old) (D.view desk.new) result }
    ensures answer { IsAbout (D.view desk.old) (λ T. IsWhole T → Means T (lines.List message attachment) result) }
{
    let mail = message_inside(desk, message, attachment)?;
    let reply = details_reply(desk.alloc(), &mail)?;
    Ok(Meaning::Replies(reply))
}

/// `eget`
fn get<D: Desk>(desk: &mut D, message: Nid, attachment: Nid, tag: Tag) -> Result<Meaning, Stop>
    ensures reads { Reads (D.view desk.old) (D.view desk.new) result }
    ensures answer { IsAbout (D.view desk.old) (λ T. IsWhole T → Means T (lines.Get message attachment tag) result) }
{
    let mail = message_inside(desk, message, attachment)?;
    let reply = reply_of(desk.alloc(), &mail, tag)?;
    Ok(Meaning::Replies(reply))
}

/// `eset`
fn set<D: Desk>(desk: &mut D, message: Nid, attachment: Nid, value: &Value) -> Result<Meaning, Stop>
    ensures reads { Reads (D.view desk.old) (D.view desk.new) result }
    ensures answer { IsAbout (D.view desk.old) (λ T. IsWhole T → Means T (lines.Set message attachment value.now) result) }
{
    let mail = message_inside(desk, message, attachment)?;
    let changed = set_inside(desk, mail, value)?;
    let command = replaced(desk.alloc(), message, attachment, changed)?;
    Ok(Meaning::Becomes(command))
}

/// `eunset`
fn unset<D: Desk>(desk: &mut D, message: Nid, attachment: Nid, tag: Tag) -> Result<Meaning, Stop>
    ensures reads { Reads (D.view desk.old) (D.view desk.new) result }
    ensures answer { IsAbout (D.view desk.old) (λ T. IsWhole T → Means T (lines.Unset message attachment tag) result) }
{
    let mail = message_inside(desk, message, attachment)?;
    let changed = unset_inside(desk.alloc(), mail, tag)?;
    let command = replaced(desk.alloc(), message, attachment, changed)?;
    Ok(Meaning::Becomes(command))
}

/// What a line on the message in an attachment comes to.
pub(crate) fn mean<D: Desk>(desk: &mut D, line: &EmbeddedCommand) -> Result<Meaning, Stop>
    ensures reads { Reads (D.view desk.old) (D.view desk.new) result }
    ensures answer { IsAbout (D.view desk.old) (λ T. IsWhole T → Means T line.now result) }
{
    match line {
        EmbeddedCommand::Embed {
            message,
            source,
            name,
        } => embed(desk, *message, *source, name),
        EmbeddedCommand::List {
            message,
            attachment,
        } => list(desk, *message, *attachment),
        EmbeddedCommand::Get {
            message,
            attachment,
            tag,
        } => get(desk, *message, *attachment, *tag),
        EmbeddedCommand::Set {
            message,
            attachment,
            value,
        } => set(desk, *message, *attachment, value),
        EmbeddedCommand::Unset {
            message,
            attachment,
            tag,
        } => unset(desk, *message, *attachment, *tag),
    }
}
