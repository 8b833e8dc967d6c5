//! `cp`
ghost use Rattle.std.specs.Prelude.{◌≡◌, IfErr};
ghost use Rattle.mail_tree.specs.Changing.{nothing};
ghost use Rattle.mail_tree.specs.Messages.{copied_message, copying, is_overfull};
ghost use Rattle.mail_draft.specs.Answers.{IsCalm, Says};
ghost use Rattle.mail_draft.specs.Desks.{Comes};
ghost use Rattle.mail_draft.specs.Sight.{Drafts};
ghost use Rattle.mail_messages.specs.Parts.{copying_into, may_copy, may_copy_into};

use crate::adding::{adding, index_in};
use crate::find::{check_plain, message_in};
use crate::mails::copy_of;
use command_text::{CommandRefusal, Limit};
use mail_draft::on_desk::touched;
use mail_draft::{Coming, CountingDesk, Stop, new_id};
use mail_objects::Mail;
use mail_tree::Places;
use mapi_values::Table;
use pst_base::Nid;

/// How many rows a command may give a table.
const MOST_ROWS: usize = 100_000;

/// Whether a table has more rows than a command may give one.
pub fn is_overfull(table: &Option<Table>) -> bool
    ensures { result ≡ is_overfull table.now }
{
    match table {
        Some(table) => table.rows().len() > MOST_ROWS,
        None => false,
    }
}

/// Checks that the tables of a message may be copied.
fn check_rows(mail: &Mail) -> Result<(), Stop>
    ensures answer { Says (λ u. u) (may_copy mail.now) result }
    ensures cause { IfErr result IsCalm }
{
    let message = mail.message();
    if is_overfull(&message.recipients) || is_overfull(&message.attachments) {
        return Err(Stop::Refused(CommandRefusal::Limit(Limit::Rows)));
    }
    Ok(())
}

/// Checks that a message may be copied into a folder: that one is plain, and the tables of this one aren't too long.
fn check_copy(places: &Places, folder: Nid, mail: &Mail) -> Result<(), Stop>
    ensures answer { Says (λ u. u) (may_copy_into folder.bits mail.now places.now) result }
    ensures cause { IfErr result IsCalm }
{
    check_plain(places, folder, CommandRefusal::Reserved)?;
    check_rows(mail)
}

/// Copies a message into a folder, where the copy gets this index. The folder of the message is put as it is.
fn copying<D: CountingDesk>(
    desk: &mut D,
    folder: Nid,
    mail: Mail,
    index: u64,
) -> Result<Coming, Stop>
    requires fresh { (D.view desk.old).changed ≡ nothing }
    ensures drafts { Drafts (D.view desk.old) (D.view desk.new) result }
    ensures answer { Comes (D.view desk.old) (D.view desk.new) (λ T c. copying T mail folder.bits index) result }
{
    touched(desk, mail.message().folder)?;
    let copy = copy_of(new_id(4, index), folder, mail);
    adding(desk, copy, index)
}

/// Copies a message into a folder. Refused where the folder isn't plain or has no room, or the message has tables that are too long.
fn copy_into<D: CountingDesk>(desk: &mut D, folder: Nid, mail: Mail) -> Result<Coming, Stop>
    requires fresh { (D.view desk.old).changed ≡ nothing }
    ensures drafts { Drafts (D.view desk.old) (D.view desk.new) result }
    ensures answer { Comes (D.view desk.old) (D.view desk.new) (λ T c. copying_into T folder.bits mail) result }
{
    check_copy(desk.places(), folder, &mail)?;
    let index = index_in(desk, folder)?;
    copying(desk, folder, mail, index)
}

/// Copies a message with its recipients, attachments and all subnodes into a folder. Refused, in this order: the message isn't there, or the folder (`Object`), the folder isn't plain (`Reserved`), the copy or the folder's table would have too many rows (`Limit(Rows)`), an object would have too many values (`Limit(Properties)`), no index is left (`Ids`).
pub fn copy_message<D: CountingDesk>(
    desk: &mut D,
    message: Nid,
    folder: Nid,
) -> Result<Coming, Stop>
    requires fresh { (D.view desk.old).changed ≡ nothing }
    ensures drafts { Drafts (D.view desk.old) (D.view desk.new) result }
    ensures answer { Comes (D.view desk.old) (D.view desk.new) (λ T c. copied_message T message.bits folder.bits) result }
{
    let mail = message_in(desk, message)?;
    copy_into(desk, folder, mail)
}
