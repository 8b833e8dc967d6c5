//! `mv`
ghost use Rattle.std.specs.Prelude.{◌≡◌, ◌==◌};
ghost use Rattle.mail_tree.specs.Changing.{nothing};
ghost use Rattle.mail_tree.specs.Messages.{moved_message};
ghost use Rattle.mail_draft.specs.Desks.{Comes};
ghost use Rattle.mail_draft.specs.Sight.{Drafts};
ghost use Rattle.mail_messages.specs.Parts.{arriving, moving_into, settling_both};
ghost use Rattle.mail_messages.specs.Pieces.{moving_message};

use crate::changes::settling;
use crate::find::{check_plain, contents, message_in};
use crate::mails::{copy_of, put_message};
use command_text::{CommandRefusal, LastLine, Reply};
use mail_draft::on_desk::{add_shown, drop_shown, settled};
use mail_draft::{Coming, Desk, Stop};
use mail_objects::Mail;
use mapi_values::Props;
use pst_base::Nid;

/// Counts two folders anew, and makes the changes.
fn settling_both<D: Desk>(desk: &mut D, from: Nid, to: Nid) -> Result<Coming, Stop>
    ensures drafts { Drafts (D.view desk.old) (D.view desk.new) result }
    ensures answer { Comes (D.view desk.old) (D.view desk.new) (λ T. settling_both T from.bits to.bits) result }
{
    settled(desk, from)?;
    settling(desk, to)
}

/// Adds a row for a message that comes from another folder.
fn arriving<D: Desk>(
    desk: &mut D,
    from: Nid,
    to: Nid,
    message: Nid,
    props: &Props,
) -> Result<Coming, Stop>
    ensures drafts { Drafts (D.view desk.old) (D.view desk.new) result }
    ensures answer { Comes (D.view desk.old) (D.view desk.new) (λ T. arriving T from.bits to.bits message.bits props.now) result }
{
    add_shown(desk, contents(to), message, props)?;
    settling_both(desk, from, to)
}

/// Moves a message from its folder into another.
fn move_between<D: Desk>(desk: &mut D, folder: Nid, mail: Mail) -> Result<Coming, Stop>
    requires fresh { (D.view desk.old).changed ≡ nothing }
    ensures drafts { Drafts (D.view desk.old) (D.view desk.new) result }
    ensures answer { Comes (D.view desk.old) (D.view desk.new) (λ T c. moving_message T mail.nid folder.bits mail) result }
{
    let from = mail.message().folder;
    let id = mail.message().nid;
    let moved = copy_of(id, folder, mail);
    let props = put_message(desk, moved)?;
    drop_shown(desk, contents(from), id)?;
    arriving(desk, from, folder, id, &props)
}

/// Whether two ids are the same.
fn is_same(one: Nid, other: Nid) -> bool
    ensures { result ≡ (one.bits == other.bits) }
{
    one.bits == other.bits
}

/// Moves a message into a folder that is plain.
fn move_into<D: Desk>(desk: &mut D, folder: Nid, mail: Mail) -> Result<Coming, Stop>
    requires fresh { (D.view desk.old).changed ≡ nothing }
    ensures drafts { Drafts (D.view desk.old) (D.view desk.new) result }
    ensures answer { Comes (D.view desk.old) (D.view desk.new) (λ T c. moving_into T mail.nid folder.bits mail) result }
{
    check_plain(desk.places(), folder, CommandRefusal::Reserved)?;
    let home = mail.message().folder;
    if is_same(home, folder) {
        let reply = Reply::without_data(desk.alloc(), LastLine::Done);
        return Ok(Coming::replied(reply));
    }
    move_between(desk, folder, mail)
}

/// Moves a message into a folder. Refused where one of the two isn't there, the folder isn't plain, or its table would have too many rows.
pub fn move_message<D: Desk>(desk: &mut D, message: Nid, folder: Nid) -> Result<Coming, Stop>
    requires fresh { (D.view desk.old).changed ≡ nothing }
    ensures drafts { Drafts (D.view desk.old) (D.view desk.new) result }
    ensures answer { Comes (D.view desk.old) (D.view desk.new) (λ T c. moved_message T message.bits folder.bits) result }
{
    let mail = message_in(desk, message)?;
    move_into(desk, folder, mail)
}
