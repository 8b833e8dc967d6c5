//! Whether a message may get an attachment with another message.
ghost use Rattle.std.specs.Prelude.{◌≡◌, IfErr, IfOk, None, OnOk, Some, if◌then◌else◌, true};
ghost use Rattle.mail_tree.specs.Parts.{attachment_tags, is_wide};
ghost use Rattle.write_limits.specs.Limits.{message_fits};
ghost use Rattle.embedded_obj.specs.Embedding.{embedding, is_uncopied, lacks_room, lacks_rows, unlaid, with_room};
ghost use Rattle.mail_parts.specs.mail_draft.Answers.{IsCalm, Says};

use command_text::{CommandRefusal, Held, Limit};
use embedded_obj::nests_deep;
use mail_objects::Mail;
use mail_parts::mail_draft::Stop;
use mail_parts::mail_messages::{is_overfull, rows_of};
use mail_parts::{LAST_INDEX, next_part, with_attachment};
use mapi_values::{Units, size};
use pst_base::{Blocks, Nid, Sub, Subs};
use std::alloc::{AllocError, Global};
use write_limits::message_fits;

/// The subnode in which `embed` lays a message.
pub(crate) const EMBEDDED: Nid = Nid { bits: 0x8024 };

/// How many rows a command may bring a table of attachments to.
const MOST_ROWS: usize = 100_000;

/// A subnode in which nothing is laid yet.
fn unlaid(alloc: Global) -> Sub
    ensures { result ≡ unlaid }
{
    Sub {
        nid: EMBEDDED,
        blocks: Blocks::new(alloc),
        subs: Subs::new(alloc),
    }
}

/// The message with an attachment for a message of this size; `None` where its table would have more than 255 columns. It is lost with an `Err`.
#[tactic(auto, unfolding(embedded_obj::specs::Embedding::with_room))]
fn with_room(alloc: Global, mail: Mail, name: &Units, size: u32) -> Result<Option<Mail>, AllocError>
    ensures { IfOk result (λ m. m ≡ (if is_wide attachment_tags mail.attachments then None else Some (with_room name.now size mail))) }
{
    let index = next_part(&mail);
    let held = Held::Message {
        size,
        node: unlaid(alloc),
    };
    with_attachment(alloc, mail, index, name, &held)
}

/// Whether the table of attachments would have too many columns with one for a message of this size, or the message couldn't be written.
#[tactic(auto, unfolding(embedded_obj::specs::Embedding::lacks_room))]
fn lacks_room(alloc: Global, mail: Mail, name: &Units, size: u32) -> Result<bool, AllocError>
    ensures { IfOk result (λ b. b ≡ lacks_room name.now size mail) }
{
    let roomy = with_room(alloc, mail, name, size)?;
    match roomy {
        Some(mail) => Ok(!message_fits(mail.message())),
        None => Ok(true),
    }
}

/// Whether a table has too many rows, or the copy of the message couldn't be written.
#[tactic(auto, unfolding(embedded_obj::specs::Embedding::is_uncopied))]
fn is_uncopied(mail: &Mail, source: &Mail) -> bool
    ensures { result ≡ is_uncopied mail.now source.now }
{
    let copied = source.message();
    rows_of(&mail.message().attachments).len() >= MOST_ROWS
        || is_overfull(&copied.recipients)
        || is_overfull(&copied.attachments)
        || !message_fits(copied)
}

/// Whether a message or its copy would have a table of too many rows or columns, or couldn't be written.
#[tactic(auto, unfolding(embedded_obj::specs::Embedding::lacks_rows))]
fn lacks_rows(alloc: Global, mail: Mail, source: &Mail, name: &Units) -> Result<bool, AllocError>
    ensures { IfOk result (λ b. b ≡ lacks_rows mail source.now name.now) }
{
    if is_uncopied(&mail, source) {
        return Ok(true);
    }
    lacks_room(alloc, mail, name, size(source.message()))
}

/// Checks that a message may get an attachment of this name with a copy of the other. Refused, in this order: a table would have too many rows or columns, or something couldn't be written (`Limit(Rows)`), a subnode would stand below level 8 (`Limit(Nesting)`), no index is left (`Ids`).
#[tactic(auto, unfolding(embedded_obj::specs::Embedding::embedding))]
pub(crate) fn check_room(alloc: Global, mail: Mail, source: &Mail, name: &Units) -> Result<(), Stop>
    ensures answer { Says (λ u. u) (embedding mail source.now name.now) result }
    ensures fits { OnOk result (message_fits source.now ≡ true) }
    ensures cause { IfErr result IsCalm }
{
    let spent = next_part(&mail) > LAST_INDEX;
    if lacks_rows(alloc, mail, source, name)? {
        return Err(Stop::Refused(CommandRefusal::Limit(Limit::Rows)));
    }
    if nests_deep(source) {
        return Err(Stop::Refused(CommandRefusal::Limit(Limit::Nesting)));
    }
    if spent {
        return Err(Stop::Refused(CommandRefusal::Ids));
    }
    Ok(())
}
