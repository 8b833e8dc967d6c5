//! `append`
ghost use Rattle.std.specs.Prelude.{◌≡◌, IsSome, None, Some, if◌then◌else◌, true};
ghost use Rattle.command_text.specs.declared.reply.CommandRefusal.TheVariants as refusal;
ghost use Rattle.command_text.specs.declared.reply.Limit.TheVariants as limit;
ghost use Rattle.command_text.specs.declared.reply.LastLine.TheVariants.{Done};
ghost use Rattle.mapi_values.specs.Keyed.{put_key};
ghost use Rattle.mapi_values.specs.Messages.{are_others, part_id};
ghost use Rattle.mapi_values.specs.declared.part.Part.{Part};
ghost use Rattle.mail_objects.specs.Message.{part_is_formed};
ghost use Rattle.mail_tree.specs.Changing.{nothing};
ghost use Rattle.mail_tree.specs.Messages.{appended_data};
ghost use Rattle.mail_draft.specs.Desks.{Comes};
ghost use Rattle.mail_draft.specs.Sight.{Drafts};
ghost use Rattle.mail_parts.specs.Pieces.{appending_in, appending_to};

use crate::part_values::{is_too_long, lengthened, with_data};
use crate::with_attachments::{take_attachment, with_part};
use command_text::{CommandRefusal, LastLine, Limit};
use mail_draft::{Coming, Desk, Stop, bytes_of};
use mail_messages::Ending;
use mail_messages::on_desk::{message_in, remake_message};
use mail_objects::Mail;
use mapi_values::Part;
use mapi_values::tags::PID_TAG_ATTACH_DATA_BINARY;
use pst_base::{Bytes, Nid};

/// How a command ends that puts bytes behind the data of an attachment, which would be too long or not.
fn append_ending(too_long: bool) -> Ending
    ensures reason { result.reason ≡ (if too_long then Some (refusal.Limit limit.Value) else None) }
    ensures last { result.last ≡ Done }
{
    let reason = if too_long {
        Some(CommandRefusal::Limit(Limit::Value))
    } else {
        None
    };
    Ending {
        reason,
        last: LastLine::Done,
    }
}

/// Puts bytes behind the data of an attachment that was taken from a message. Refused where it has none.
fn append_to<D: Desk>(desk: &mut D, mail: Mail, part: Part, more: &Bytes) -> Result<Coming, Stop>
    requires fresh { (D.view desk.old).changed ≡ nothing }
    requires table { IsSome mail.attachments }
    requires free { (p : Part) → part_id p ≡ part_id part → are_others (put_key part_id p mail.parts) mail.kept ≡ true }
    requires formed { part_is_formed part ≡ true }
    ensures drafts { Drafts (D.view desk.old) (D.view desk.new) result }
    ensures answer { Comes (D.view desk.old) (D.view desk.new) (λ T c. appending_to T more.now mail part) result }
{
    let tag = PID_TAG_ATTACH_DATA_BINARY;
    let Some(old) = bytes_of(&part.props, tag.id, tag.kind) else {
        return Err(Stop::Refused(CommandRefusal::Property));
    };
    let too_long = is_too_long(old, more.as_slice());
    let bytes = lengthened(desk.alloc(), old, more.as_slice())?;
    let part = with_data(desk.alloc(), part, bytes)?;
    let end = append_ending(too_long);
    let mail = with_part(desk.alloc(), mail, part)?;
    remake_message(desk, mail, end)
}

/// Puts bytes behind the data of the attachment of a message with this id.
fn append_in<D: Desk>(
    desk: &mut D,
    mail: Mail,
    attachment: Nid,
    more: &Bytes,
) -> Result<Coming, Stop>
    requires fresh { (D.view desk.old).changed ≡ nothing }
    ensures drafts { Drafts (D.view desk.old) (D.view desk.new) result }
    ensures answer { Comes (D.view desk.old) (D.view desk.new) (λ T c. appending_in T attachment.bits more.now mail) result }
{
    match take_attachment(mail, attachment) {
        Some(taken) => append_to(desk, taken.0, taken.1, more),
        None => Err(Stop::Refused(CommandRefusal::Object)),
    }
}

/// Puts bytes behind the data of the attachment of a message with this id, and sets how long it is. Refused, in this order: the message isn't there or has no such attachment (`Object`), that has no data (`Property`), a table couldn't be written (`Limit(Rows)`), an object would have too many values (`Limit(Properties)`), bytes would be added to more than 8,000,000 (`Limit(Value)`).
pub fn append<D: Desk>(
    desk: &mut D,
    message: Nid,
    attachment: Nid,
    more: &Bytes,
) -> Result<Coming, Stop>
    requires fresh { (D.view desk.old).changed ≡ nothing }
    ensures drafts { Drafts (D.view desk.old) (D.view desk.new) result }
    ensures answer { Comes (D.view desk.old) (D.view desk.new) (λ T c. appended_data T message.bits attachment.bits more.now) result }
{
    let mail = message_in(desk, message)?;
    append_in(desk, mail, attachment, more)
}
