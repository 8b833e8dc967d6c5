//! The message that an id names.
ghost use Rattle.std.specs.Prelude.{◌≡◌, IfErr};
ghost use Rattle.mail_tree.specs.Changing.{contents};
ghost use Rattle.mail_tree.specs.Messages.{message_in};
ghost use Rattle.mail_draft.specs.Answers.{IsCalm, Says};
ghost use Rattle.mail_draft.specs.Sight.{Answers, Reads};
ghost use Rattle.mail_messages.specs.Finding.{is_listed, is_there, listed_below, plain_at};

use command_text::CommandRefusal;
use mail_draft::{Desk, Stop};
use mail_objects::Mail;
use mail_tree::{Places, Sort};
use pst_base::{Nid, make_nid};

/// The node of the table of a folder's messages.
pub(crate) fn contents(folder: Nid) -> Nid
    ensures { result.bits ≡ contents folder.bits }
{
    make_nid(0x0E, folder.index())
}

/// Checks that a folder holds folders and messages. Refused as `Object` where there is none, and by the given refusal where it doesn't.
pub(crate) fn check_plain(
    places: &Places,
    folder: Nid,
    reserved: CommandRefusal,
) -> Result<(), Stop>
    ensures answer { Says (λ u. u) (plain_at folder.bits reserved places.now) result }
    ensures cause { IfErr result IsCalm }
{
    match places.find(folder) {
        Some(place) => match place.sort {
            Sort::Plain => Ok(()),
            Sort::Foreign => Err(Stop::Refused(reserved)),
        },
        None => Err(Stop::Refused(CommandRefusal::Object)),
    }
}

/// Refused where the folder doesn't list the message: its table is asked for the one row, and no other is read.
fn check_row<D: Desk>(desk: &mut D, message: Nid, folder: Nid) -> Result<(), Stop>
    ensures reads { Reads (D.view desk.old) (D.view desk.new) result }
    ensures answer { Answers (D.view desk.old) (λ u. u) (λ T c. is_listed T message.bits folder.bits) result }
{
    let listed = desk.has_row(contents(folder), message)?;
    if listed {
        Ok(())
    } else {
        Err(Stop::Refused(CommandRefusal::Object))
    }
}

/// Refused where the folder isn't plain, or doesn't list the message.
fn check_below<D: Desk>(desk: &mut D, message: Nid, folder: Nid) -> Result<(), Stop>
    ensures reads { Reads (D.view desk.old) (D.view desk.new) result }
    ensures answer { Answers (D.view desk.old) (λ u. u) (λ T c. listed_below T message.bits folder.bits) result }
{
    check_plain(desk.places(), folder, CommandRefusal::Object)?;
    check_row(desk, message, folder)
}

/// Refused where the folder that is the parent of the message's node doesn't list it. The message isn't read.
pub fn check_there<D: Desk>(desk: &mut D, message: Nid) -> Result<(), Stop>
    ensures reads { Reads (D.view desk.old) (D.view desk.new) result }
    ensures answer { Answers (D.view desk.old) (λ u. u) (λ T c. is_there T message.bits) result }
{
    if message.kind() != 4 {
        return Err(Stop::Refused(CommandRefusal::Object));
    }
    let folder = desk.parent(message)?;
    check_below(desk, message, folder)
}

/// The message with this id, which the folder that is its node's parent lists. Refused otherwise.
pub fn message_in<D: Desk>(desk: &mut D, message: Nid) -> Result<Mail, Stop>
    ensures reads { Reads (D.view desk.old) (D.view desk.new) result }
    ensures answer { Answers (D.view desk.old) (λ m. m) (λ T c. message_in T message.bits) result }
{
    check_there(desk, message)?;
    desk.message_before(message)
}
