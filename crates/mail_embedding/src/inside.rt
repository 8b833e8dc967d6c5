//! The message in an attachment.
ghost use Rattle.std.specs.Prelude.{◌≡◌, IfErr, Ok};
ghost use Rattle.command_text.specs.declared.reply.CommandRefusal.TheVariants as refusal;
ghost use Rattle.mail_tree.specs.Changing.{found};
ghost use Rattle.mail_tree.specs.Parts.{part_in};
ghost use Rattle.mail_tree.specs.Whole.{IsWhole};
ghost use Rattle.mail_parts.specs.mail_draft.Answers.{IsCalm, Says};
ghost use Rattle.mail_parts.specs.mail_draft.Sight.{Answers, IsAbout, Reads};
ghost use Rattle.mail_embedding.specs.Meant.{Inside, attachment_of};

use command_text::CommandRefusal;
use embedded_obj::inner;
use mail_objects::Mail;
use mail_parts::mail_draft::{Desk, Stop};
use mail_parts::mail_messages::on_desk::message_in;
use mail_parts::part_in;
use mapi_values::Part;
use pst_base::Nid;
use std::alloc::Global;

/// The attachment of a message with this id. Refused where it has none.
fn copied_part(alloc: Global, mail: &Mail, attachment: Nid) -> Result<Part, Stop>
    ensures answer { Says (λ p. p) (found refusal.Object (part_in attachment.bits mail.now)) result }
    ensures cause { IfErr result IsCalm }
{
    match part_in(mail, attachment) {
        Some(part) => Ok(part.copy(alloc)?),
        None => Err(Stop::Refused(CommandRefusal::Object)),
    }
}

/// The attachment of a message. Refused where the message isn't there, or has no such attachment.
#[tactic(auto, unfolding(crate::specs::Meant::attachment_of))]
fn attachment_of<D: Desk>(desk: &mut D, message: Nid, attachment: Nid) -> Result<Part, Stop>
    ensures reads { Reads (D.view desk.old) (D.view desk.new) result }
    ensures answer { Answers (D.view desk.old) (λ p. p) (λ T c. attachment_of T message.bits attachment.bits) result }
{
    let mail = message_in(desk, message)?;
    copied_part(desk.alloc(), &mail, attachment)
}

/// The message that an attachment holds. Refused where there is no such attachment (`Object`), or it holds none (`Embedded`).
pub(crate) fn message_inside<D: Desk>(
    desk: &mut D,
    message: Nid,
    attachment: Nid,
) -> Result<Mail, Stop>
    ensures reads { Reads (D.view desk.old) (D.view desk.new) result }
    ensures answer { IsAbout (D.view desk.old) (λ T. IsWhole T → Inside (attachment_of T message.bits attachment.bits) (λ part m r. r ≡ Ok m) result) }
{
    let part = attachment_of(desk, message, attachment)?;
    match inner(desk.alloc(), &part)? {
        Some(mail) => Ok(mail),
        None => Err(Stop::Refused(CommandRefusal::Embedded)),
    }
}
