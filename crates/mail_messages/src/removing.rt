//! `rm`
ghost use Rattle.std.specs.Prelude.{◌≡◌};
ghost use Rattle.mail_tree.specs.Changing.{nothing};
ghost use Rattle.mail_tree.specs.Messages.{removed_message};
ghost use Rattle.mail_draft.specs.Desks.{Comes};
ghost use Rattle.mail_draft.specs.Sight.{Drafts};
ghost use Rattle.mail_messages.specs.Pieces.{removing_message};

use crate::changes::settling;
use crate::find::{contents, message_in};
use mail_draft::on_desk::drop_shown;
use mail_draft::{Coming, Desk, Stop};
use pst_base::Nid;

/// Takes a message out of its folder.
fn take_out<D: Desk>(desk: &mut D, message: Nid, folder: Nid) -> Result<Coming, Stop>
    requires fresh { (D.view desk.old).changed ≡ nothing }
    ensures drafts { Drafts (D.view desk.old) (D.view desk.new) result }
    ensures answer { Comes (D.view desk.old) (D.view desk.new) (λ T c. removing_message T message.bits folder.bits) result }
{
    desk.put(message, None)?;
    drop_shown(desk, contents(folder), message)?;
    settling(desk, folder)
}

/// Removes a message. Refused where it isn't there.
pub fn remove_message<D: Desk>(desk: &mut D, message: Nid) -> Result<Coming, Stop>
    requires fresh { (D.view desk.old).changed ≡ nothing }
    ensures drafts { Drafts (D.view desk.old) (D.view desk.new) result }
    ensures answer { Comes (D.view desk.old) (D.view desk.new) (λ T c. removed_message T message.bits) result }
{
    let mail = message_in(desk, message)?;
    let folder = mail.message().folder;
    take_out(desk, message, folder)
}
