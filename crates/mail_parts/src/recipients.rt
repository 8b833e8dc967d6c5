//! `rcpt` and `unrcpt`
ghost use Rattle.std.specs.Prelude.{◌≡◌, IfErr, not};
ghost use Rattle.command_text.specs.declared.reply.CommandRefusal.TheVariants as refusal;
ghost use Rattle.command_text.specs.declared.reply.Limit.TheVariants as limit;
ghost use Rattle.command_text.specs.declared.reply.LastLine.TheVariants as last;
ghost use Rattle.mail_tree.specs.Changing.{nothing, refused_if};
ghost use Rattle.mail_tree.specs.Messages.{added_recipient, removed_recipient, spent_row};
ghost use Rattle.mail_tree.specs.Parts.{has_recipient, is_full, new_row};
ghost use Rattle.mail_draft.specs.Answers.{IsCalm, Says};
ghost use Rattle.mail_draft.specs.Desks.{Comes};
ghost use Rattle.mail_draft.specs.Sight.{Drafts};
ghost use Rattle.mail_parts.specs.Pieces.{adding_one, adding_to, removing_one};

use crate::with_recipients::{
    has_recipient, new_row, next_row, recipient_props, with_recipient, without_recipient,
};
use command_text::{CommandRefusal, LastLine, Limit};
use mail_draft::{Coming, Desk, Stop};
use mail_messages::on_desk::{message_in, remake_message};
use mail_messages::{Ending, rows_of};
use mail_objects::Mail;
use mapi_values::{Props, Units};
use pst_base::Nid;

/// How many rows a command may bring a table of recipients to.
const MOST_ROWS: usize = 100_000;

/// How a command ends that gives a message a recipient in this row, which may be past the last one.
fn recipient_ending(row: u64) -> Ending
    ensures reason { result.reason ≡ spent_row row }
    ensures last { result.last ≡ last.Row (new_row row) }
{
    let reason = if row > u64::from(u32::MAX) {
        Some(CommandRefusal::Ids)
    } else {
        None
    };
    Ending {
        reason,
        last: LastLine::Row(new_row(row)),
    }
}

/// Gives a message a recipient of these values. Refused where its table would have too many columns.
fn add_to<D: Desk>(desk: &mut D, mail: Mail, props: &Props) -> Result<Coming, Stop>
    requires fresh { (D.view desk.old).changed ≡ nothing }
    ensures drafts { Drafts (D.view desk.old) (D.view desk.new) result }
    ensures answer { Comes (D.view desk.old) (D.view desk.new) (λ T c. adding_to T mail props.now) result }
{
    let row = next_row(rows_of(&mail.message().recipients));
    let added = with_recipient(desk.alloc(), mail, new_row(row), props)?;
    match added {
        Some(mail) => remake_message(desk, mail, recipient_ending(row)),
        None => Err(Stop::Refused(CommandRefusal::Limit(Limit::Rows))),
    }
}

/// Checks that a message may get another recipient.
fn check_room(mail: &Mail) -> Result<(), Stop>
    ensures answer { Says (λ u. u) (refused_if (is_full mail.now.recipients) (refusal.Limit limit.Rows)) result }
    ensures cause { IfErr result IsCalm }
{
    if rows_of(&mail.message().recipients).len() >= MOST_ROWS {
        return Err(Stop::Refused(CommandRefusal::Limit(Limit::Rows)));
    }
    Ok(())
}

/// Gives a message a recipient of these values.
fn add_one<D: Desk>(desk: &mut D, mail: Mail, props: &Props) -> Result<Coming, Stop>
    requires fresh { (D.view desk.old).changed ≡ nothing }
    ensures drafts { Drafts (D.view desk.old) (D.view desk.new) result }
    ensures answer { Comes (D.view desk.old) (D.view desk.new) (λ T c. adding_one T mail props.now) result }
{
    check_room(&mail)?;
    add_to(desk, mail, props)
}

/// Gives a message a recipient of a type, an address and a name, in the row that follows its greatest. Refused, in this order: the message isn't there (`Object`), its table of recipients would have too many rows or columns (`Limit(Rows)`), an object would have too many values (`Limit(Properties)`), no row is left (`Ids`).
pub fn add_recipient<D: Desk>(
    desk: &mut D,
    message: Nid,
    kind: u32,
    address: &Units,
    name: &Units,
) -> Result<Coming, Stop>
    requires fresh { (D.view desk.old).changed ≡ nothing }
    ensures drafts { Drafts (D.view desk.old) (D.view desk.new) result }
    ensures answer { Comes (D.view desk.old) (D.view desk.new) (λ T c. added_recipient T message.bits kind address.now name.now) result }
{
    let mail = message_in(desk, message)?;
    let props = recipient_props(desk.alloc(), kind, address, name)?;
    add_one(desk, mail, &props)
}

/// Checks that a message has a recipient in this row.
fn check_recipient(mail: &Mail, row: u32) -> Result<(), Stop>
    ensures answer { Says (λ u. u) (refused_if (not (has_recipient row mail.now)) refusal.Object) result }
    ensures cause { IfErr result IsCalm }
{
    if !has_recipient(mail, row) {
        return Err(Stop::Refused(CommandRefusal::Object));
    }
    Ok(())
}

/// Removes the recipient in this row from a message.
fn remove_one<D: Desk>(desk: &mut D, mail: Mail, row: u32) -> Result<Coming, Stop>
    requires fresh { (D.view desk.old).changed ≡ nothing }
    ensures drafts { Drafts (D.view desk.old) (D.view desk.new) result }
    ensures answer { Comes (D.view desk.old) (D.view desk.new) (λ T c. removing_one T row mail) result }
{
    check_recipient(&mail, row)?;
    let mail = without_recipient(mail, row);
    remake_message(desk, mail, Ending::done())
}

/// Removes the recipient in this row from a message. Refused where the message isn't there, or has none in it.
pub fn remove_recipient<D: Desk>(desk: &mut D, message: Nid, row: u32) -> Result<Coming, Stop>
    requires fresh { (D.view desk.old).changed ≡ nothing }
    ensures drafts { Drafts (D.view desk.old) (D.view desk.new) result }
    ensures answer { Comes (D.view desk.old) (D.view desk.new) (λ T c. removed_recipient T message.bits row) result }
{
    let mail = message_in(desk, message)?;
    remove_one(desk, mail, row)
}
