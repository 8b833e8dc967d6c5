//! What `eset` and `eunset` come to: another message in an attachment.
ghost use Rattle.std.specs.Prelude.{◌≡◌, ◌<◌, ◌==◌, IfOk, IsSome, length, position, set, true};
ghost use Rattle.mapi_values.specs.Keyed.{put_key};
ghost use Rattle.mapi_values.specs.Messages.{are_others, part_id};
ghost use Rattle.mapi_values.specs.declared.part.Part.{Part};
ghost use Rattle.mail_objects.specs.Message.{part_is_formed};
ghost use Rattle.mail_tree.specs.Changing.{nothing};
ghost use Rattle.mail_tree.specs.Messages.{set_embedded};
ghost use Rattle.mail_tree.specs.Parts.{part_holding, with_subnode};
ghost use Rattle.mail_draft.specs.Desks.{Comes};
ghost use Rattle.mail_draft.specs.Sight.{Drafts};
ghost use Rattle.mail_parts.specs.Pieces.{holding, holding_in};

use crate::with_attachments::{take_attachment, with_part};
use command_text::CommandRefusal;
use mail_draft::{Coming, Desk, Stop};
use mail_messages::Ending;
use mail_messages::on_desk::{message_in, remake_message};
use mail_objects::Mail;
use mapi_values::Part;
use node_values::copy_sub;
use pst_base::{Nid, Sub, Subs};
use std::alloc::{AllocError, Global};

/// The place of the first subnode with this id.
fn place_of(entries: &[Sub], bits: u32) -> Option<usize>
    ensures { result ≡ position (λ sub. sub.nid.bits == bits) entries.now }
{
    entries.iter().position(|sub| sub.nid.bits == bits)
}

/// Puts this subnode in place of the one there.
fn put_at(entries: &mut Vec<Sub>, i: usize, node: Sub)
    requires { i < length entries.old.items }
    ensures { entries.new.items ≡ set entries.old.items i node }
{
    entries[i] = node;
}

/// The subnodes with a copy of this one in place of the first of its id, if there is one.
fn with_subnode(alloc: Global, kept: Subs, node: &Sub) -> Result<Subs, AllocError>
    ensures { IfOk result (λ subs. subs ≡ with_subnode node.now kept) }
{
    let mut entries = kept.into_vec();
    match place_of(entries.as_slice(), node.nid.bits) {
        Some(i) => {
            put_at(&mut entries, i, copy_sub(alloc, node)?);
            Ok(Subs::from_vec(entries))
        }
        None => Ok(Subs::from_vec(entries)),
    }
}

/// The attachment with another message in it. It is lost with an `Err`.
fn part_holding(alloc: Global, part: Part, node: &Sub) -> Result<Part, AllocError>
    requires { part_is_formed part ≡ true }
    ensures value { IfOk result (λ p. p ≡ part_holding node.now part) }
    ensures formed { IfOk result (λ p. part_is_formed p ≡ true) }
{
    Ok(Part {
        nid: part.nid,
        props: part.props,
        kept: with_subnode(alloc, part.kept, node)?,
    })
}

/// Puts another message into an attachment that was taken from a message.
fn hold<D: Desk>(desk: &mut D, mail: Mail, part: Part, node: &Sub) -> Result<Coming, Stop>
    requires fresh { (D.view desk.old).changed ≡ nothing }
    requires table { IsSome mail.attachments }
    requires free { (p : Part) → part_id p ≡ part_id part → are_others (put_key part_id p mail.parts) mail.kept ≡ true }
    requires formed { part_is_formed part ≡ true }
    ensures drafts { Drafts (D.view desk.old) (D.view desk.new) result }
    ensures answer { Comes (D.view desk.old) (D.view desk.new) (λ T c. holding T node.now part mail) result }
{
    let part = part_holding(desk.alloc(), part, node)?;
    let mail = with_part(desk.alloc(), mail, part)?;
    remake_message(desk, mail, Ending::done())
}

/// Puts another message into the attachment of a message with this id.
fn hold_in<D: Desk>(desk: &mut D, mail: Mail, attachment: Nid, node: &Sub) -> Result<Coming, Stop>
    requires fresh { (D.view desk.old).changed ≡ nothing }
    ensures drafts { Drafts (D.view desk.old) (D.view desk.new) result }
    ensures answer { Comes (D.view desk.old) (D.view desk.new) (λ T c. holding_in T attachment.bits node.now mail) result }
{
    match take_attachment(mail, attachment) {
        Some(taken) => hold(desk, taken.0, taken.1, node),
        None => Err(Stop::Refused(CommandRefusal::Object)),
    }
}

/// Puts this subnode, which is another message, into the attachment of a message with this id in place of the one of the subnode's id. Refused, in this order: the message isn't there or has no such attachment (`Object`), a table couldn't be written (`Limit(Rows)`), an object would have too many values (`Limit(Properties)`).
pub fn set_embedded<D: Desk>(
    desk: &mut D,
    message: Nid,
    attachment: Nid,
    node: &Sub,
) -> Result<Coming, Stop>
    requires fresh { (D.view desk.old).changed ≡ nothing }
    ensures drafts { Drafts (D.view desk.old) (D.view desk.new) result }
    ensures answer { Comes (D.view desk.old) (D.view desk.new) (λ T c. set_embedded T message.bits attachment.bits node.now) result }
{
    let mail = message_in(desk, message)?;
    hold_in(desk, mail, attachment, node)
}
