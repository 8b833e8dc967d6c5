//! Laying a message out for an attachment.
ghost use Rattle.std.specs.Prelude.{◌≡◌, IfOk, true};
ghost use Rattle.mail_objects.specs.Message.{is_formed};
ghost use Rattle.write_limits.specs.Limits.{message_fits};
ghost use Rattle.embedded_obj.specs.Embedding.{IsLaid, embedded};

use mail_objects::{Mail, write_message};
use mapi_values::Message;
use pst_base::{Nid, Sub};
use std::alloc::{AllocError, Global};

/// The same message under this id, in no folder.
#[tactic(auto, unfolding(mail_objects::specs::Message::is_formed))]
fn embedded(nid: Nid, mail: Mail) -> Message
    ensures message { result ≡ embedded nid.bits mail }
    ensures formed { is_formed result ≡ true }
{
    let message = mail.into_message();
    Message {
        nid,
        folder: Nid { bits: 0 },
        props: message.props,
        recipients: message.recipients,
        attachments: message.attachments,
        parts: message.parts,
        kept: message.kept,
    }
}

/// The message as a subnode with this id, in no folder. The message is lost. An `Err` says that memory ran out.
#[tactic(auto, unfolding(write_limits::specs::Limits::message_fits))]
pub fn lay(alloc: Global, mail: Mail, nid: Nid) -> Result<Sub, AllocError>
    requires { message_fits mail ≡ true }
    ensures id { IfOk result (λ node. node.nid ≡ nid) }
    ensures laid { IfOk result (λ node. IsLaid node (embedded nid.bits mail)) }
{
    let message = embedded(nid, mail);
    let node = write_message(alloc, &message)?;
    Ok(Sub {
        nid,
        blocks: node.blocks,
        subs: node.subs,
    })
}
