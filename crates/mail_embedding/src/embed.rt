//! `embed`
ghost use Rattle.std.specs.Prelude.{◌≡◌, IfOk, OnOk, true};
ghost use Rattle.write_limits.specs.Limits.{message_fits};
ghost use Rattle.mail_tree.specs.Whole.{IsWhole};
ghost use Rattle.mail_parts.specs.mail_draft.Sight.{Answers, IsAbout, Reads};
ghost use Rattle.mail_embedding.specs.Meant.{IsAdded, Puts, embedding_of};

use crate::meaning::Meaning;
use crate::room::{EMBEDDED, check_room};
use command_text::{Command, Held};
use embedded_obj::lay;
use mail_objects::Mail;
use mail_parts::mail_draft::{Desk, Stop};
use mail_parts::mail_messages::on_desk::message_in;
use mapi_values::{Units, size};
use pst_base::Nid;
use std::alloc::{AllocError, Global};

/// The message that is to be embedded in another under this name. Refused where one of both isn't there, the first before the second, or `check_room` refuses it.
#[tactic(auto, unfolding(crate::specs::Meant::embedding_of))]
fn embedding_of<D: Desk>(
    desk: &mut D,
    message: Nid,
    source: Nid,
    name: &Units,
) -> Result<Mail, Stop>
    ensures reads { Reads (D.view desk.old) (D.view desk.new) result }
    ensures answer { Answers (D.view desk.old) (λ m. m) (λ T c. embedding_of T message.bits source.bits name.now) result }
    ensures fits { IfOk result (λ m. message_fits m ≡ true) }
{
    let mail = message_in(desk, message)?;
    let copied = message_in(desk, source)?;
    check_room(desk.alloc(), mail, &copied, name)?;
    Ok(copied)
}

/// The command that gives a message an attachment of this name with the other, which is lost.
fn added(alloc: Global, message: Nid, source: Mail, name: &Units) -> Result<Command, AllocError>
    requires { message_fits source ≡ true }
    ensures { IfOk result (IsAdded message name.now source) }
{
    let size = size(source.message());
    let node = lay(alloc, source, EMBEDDED)?;
    Ok(Command::AddAttachment {
        message,
        name: name.copy(alloc)?,
        held: Held::Message { size, node },
    })
}

/// What `embed` comes to. Refused as `embedding_of` is.
pub(crate) fn embed<D: Desk>(
    desk: &mut D,
    message: Nid,
    source: Nid,
    name: &Units,
) -> Result<Meaning, Stop>
    ensures reads { Reads (D.view desk.old) (D.view desk.new) result }
    ensures answer { IsAbout (D.view desk.old) (λ T. IsWhole T → Puts (embedding_of T message.bits source.bits name.now) (IsAdded message name.now) result) }
{
    let source = embedding_of(desk, message, source, name)?;
    let command = added(desk.alloc(), message, source, name)?;
    Ok(Meaning::Becomes(command))
}
