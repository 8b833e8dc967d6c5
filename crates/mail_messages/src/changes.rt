//! What changes of messages come to.
ghost use Rattle.std.specs.Prelude.{◌≡◌, None};
ghost use Rattle.command_text.specs.declared.reply.LastLine.TheVariants.{Done};
ghost use Rattle.mail_tree.specs.Changing.{nothing};
ghost use Rattle.mail_tree.specs.Messages.{remaking};
ghost use Rattle.mail_tree.specs.Values.{finished};
ghost use Rattle.mail_draft.specs.Desks.{Comes};
ghost use Rattle.mail_draft.specs.Sight.{Changes, Drafts};
ghost use Rattle.mail_messages.specs.Parts.{settling, showing_row};
ghost use Rattle.mail_messages.specs.Pieces.{showing_message};

use crate::ending::Ending;
use crate::find::contents;
use crate::mails::{finished, put_message};
use mail_draft::on_desk::{changing, put_shown, replying, settled};
use mail_draft::{Coming, Desk, Stop};
use mail_objects::Mail;
use mapi_values::Props;
use pst_base::Nid;

/// Counts a folder anew, and makes the changes.
pub(crate) fn settling<D: Desk>(desk: &mut D, folder: Nid) -> Result<Coming, Stop>
    ensures drafts { Drafts (D.view desk.old) (D.view desk.new) result }
    ensures answer { Comes (D.view desk.old) (D.view desk.new) (λ T. settling T folder.bits) result }
{
    settled(desk, folder)?;
    changing(desk)
}

/// Makes the row of a message in its folder's table show these values of it, and counts the folder anew.
fn showing_row<D: Desk>(desk: &mut D, folder: Nid, message: Nid, props: &Props) -> Result<(), Stop>
    ensures drafts { Drafts (D.view desk.old) (D.view desk.new) result }
    ensures answer { Changes (D.view desk.old) (D.view desk.new) (λ T. showing_row T folder.bits message.bits props.now) result }
{
    put_shown(desk, contents(folder), message, props)?;
    settled(desk, folder)
}

/// Puts a message in place of the one with its id, once its flags and its size are made right, and shows it.
fn remade<D: Desk>(desk: &mut D, mail: Mail) -> Result<(), Stop>
    requires fresh { (D.view desk.old).changed ≡ nothing }
    ensures drafts { Drafts (D.view desk.old) (D.view desk.new) result }
    ensures answer { Changes (D.view desk.old) (D.view desk.new) (λ T c. showing_message T (finished mail)) result }
{
    let mail = finished(desk.alloc(), mail)?;
    let folder = mail.message().folder;
    let nid = mail.message().nid;
    let props = put_message(desk, mail)?;
    showing_row(desk, folder, nid, &props)
}

/// Puts another message in place of the one with its id: its flags and its size are made right, and it is shown.
pub fn remake_message<D: Desk>(desk: &mut D, mail: Mail, end: Ending) -> Result<Coming, Stop>
    requires fresh { (D.view desk.old).changed ≡ nothing }
    ensures drafts { Drafts (D.view desk.old) (D.view desk.new) result }
    ensures answer { Comes (D.view desk.old) (D.view desk.new) (λ T c. remaking T mail end.reason end.last) result }
{
    remade(desk, mail)?;
    replying(desk, end.reason, end.last)
}

/// Puts a message that got other values in place of the one with its id.
pub(crate) fn change_message<D: Desk>(desk: &mut D, mail: Mail) -> Result<Coming, Stop>
    requires fresh { (D.view desk.old).changed ≡ nothing }
    ensures drafts { Drafts (D.view desk.old) (D.view desk.new) result }
    ensures answer { Comes (D.view desk.old) (D.view desk.new) (λ T c. remaking T mail None Done) result }
{
    remake_message(desk, mail, Ending::done())
}
