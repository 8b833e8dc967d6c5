//! New messages in a folder.
ghost use Rattle.std.specs.Prelude.{IfErr, Ok};
ghost use Rattle.mail_tree.specs.Messages.{added_message};
ghost use Rattle.mail_tree.specs.Changing.{contents};
ghost use Rattle.mail_tree.specs.Folders.{unless_full};
ghost use Rattle.mail_tree.specs.Ids.{message_kinds, next_index};
ghost use Rattle.mail_draft.specs.Answers.{IsCalm, Says};
ghost use Rattle.mail_draft.specs.Desks.{Comes};
ghost use Rattle.mail_draft.specs.Sight.{Answers, Changes, Drafts, Reads};
ghost use Rattle.mail_messages.specs.Parts.{adding, adding_row, index_in, may_grow};

use crate::find::contents;
use crate::mails::put_message;
use command_text::{CommandRefusal, Limit};
use mail_draft::on_desk::{add_shown, making, settled};
use mail_draft::{Coming, CountingDesk, Desk, Stop};
use mail_objects::Mail;
use mapi_values::Props;
use pst_base::Nid;

/// How many rows a command may bring a table to.
const MOST_ROWS: usize = 100_000;

/// Checks that a table of so many rows may get another.
fn check_growth(count: usize) -> Result<(), Stop>
    ensures answer { Says (λ u. u) (may_grow count) result }
    ensures cause { IfErr result IsCalm }
{
    if count >= MOST_ROWS {
        return Err(Stop::Refused(CommandRefusal::Limit(Limit::Rows)));
    }
    Ok(())
}

/// Checks that a folder's table of messages may get another row.
fn unless_full<D: Desk>(desk: &mut D, folder: Nid) -> Result<(), Stop>
    ensures reads { Reads (D.view desk.old) (D.view desk.new) result }
    ensures answer { Answers (D.view desk.old) (λ u. u) (λ T c. unless_full T (contents folder.bits)) result }
{
    let count = desk.row_count(contents(folder))?;
    check_growth(count)
}

/// The index of the next message, which may be past the last one.
fn next_message<D: CountingDesk>(desk: &mut D) -> Result<u64, Stop>
    ensures reads { Reads (D.view desk.old) (D.view desk.new) result }
    ensures answer { Answers (D.view desk.old) (λ n. n) (λ T c. Ok (next_index T 4 message_kinds)) result }
{
    desk.next_index(4, &[4])
}

/// The index of a message that is to come into a folder, which may be past the last one. Refused where the folder has no room for it.
pub(crate) fn index_in<D: CountingDesk>(desk: &mut D, folder: Nid) -> Result<u64, Stop>
    ensures reads { Reads (D.view desk.old) (D.view desk.new) result }
    ensures answer { Answers (D.view desk.old) (λ n. n) (λ T c. index_in T folder.bits) result }
{
    unless_full(desk, folder)?;
    next_message(desk)
}

/// Adds a row that shows these values of a message to its folder's table, and counts the folder anew.
fn add_row<D: Desk>(desk: &mut D, folder: Nid, message: Nid, props: &Props) -> Result<(), Stop>
    ensures drafts { Drafts (D.view desk.old) (D.view desk.new) result }
    ensures answer { Changes (D.view desk.old) (D.view desk.new) (λ T. adding_row T folder.bits message.bits props.now) result }
{
    add_shown(desk, contents(folder), message, props)?;
    settled(desk, folder)
}

/// Puts a new message, which its folder then lists.
fn add_message<D: Desk>(desk: &mut D, mail: Mail) -> Result<(), Stop>
    ensures drafts { Drafts (D.view desk.old) (D.view desk.new) result }
    ensures answer { Changes (D.view desk.old) (D.view desk.new) (λ T. added_message T mail) result }
{
    let folder = mail.message().folder;
    let nid = mail.message().nid;
    let props = put_message(desk, mail)?;
    add_row(desk, folder, nid, &props)
}

/// Puts a new message with this index, and makes the changes.
pub(crate) fn adding<D: CountingDesk>(desk: &mut D, mail: Mail, index: u64) -> Result<Coming, Stop>
    ensures drafts { Drafts (D.view desk.old) (D.view desk.new) result }
    ensures answer { Comes (D.view desk.old) (D.view desk.new) (λ T c. adding T mail c index) result }
{
    add_message(desk, mail)?;
    making(desk, None, 4, index)
}
