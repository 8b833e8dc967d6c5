//! The lines that tell of a message.
ghost use Rattle.std.specs.Prelude.{◌≡◌, ◌++◌, IfOk, OnOk, map};
ghost use Rattle.mapi_values.specs.Properties.{find};
ghost use Rattle.mail_tree.specs.Folders.{listed};
ghost use Rattle.mail_tree.specs.Messages.{attachment_line, property_line, recipient_line};
ghost use Rattle.mail_tree.specs.Parts.{rows_of};
ghost use Rattle.mail_tree.specs.Values.{length_of};
ghost use Rattle.mail_messages.specs.Parts.{detail_lines};

use command_text::{DataLine, DataLines, LastLine, Reply};
use mail_draft::{number_of, text_of};
use mail_objects::Mail;
use mapi_values::tags::{
    PID_TAG_ATTACH_DATA_BINARY, PID_TAG_ATTACH_FILENAME, PID_TAG_DISPLAY_NAME,
    PID_TAG_EMAIL_ADDRESS, PID_TAG_RECIPIENT_TYPE,
};
use mapi_values::{Part, Props, Table, Value};
use std::alloc::{AllocError, Global};

/// A reply of lines of data and their number.
pub(crate) fn listed(lines: Vec<DataLine>) -> Reply
    ensures { result ≡ listed lines.items }
{
    let count = lines.len() as u64;
    Reply {
        lines: DataLines::from_vec(lines),
        last: LastLine::Count(count),
    }
}

/// The line of a value.
fn property_line(value: &Value) -> DataLine
    ensures { result ≡ property_line value.now }
{
    DataLine::Property {
        tag: value.tag(),
        len: value.len() as u64,
    }
}

/// Pushes the lines of values.
fn push_properties(lines: &mut Vec<DataLine>, values: &[Value]) -> Result<(), AllocError>
    ensures { OnOk result (lines.new.items ≡ lines.old.items ++ map property_line values.now) }
{
    for value in values {
        lines.push(property_line(value))?;
    }
    Ok(())
}

/// The line of a recipient.
fn recipient_line(alloc: Global, recipient: &(u32, Props)) -> Result<DataLine, AllocError>
    ensures { IfOk result (λ line. line ≡ recipient_line recipient.now) }
{
    let props = &recipient.1;
    Ok(DataLine::Recipient {
        row: recipient.0,
        kind: number_of(props, PID_TAG_RECIPIENT_TYPE.id),
        address: text_of(alloc, props, PID_TAG_EMAIL_ADDRESS.id)?,
        name: text_of(alloc, props, PID_TAG_DISPLAY_NAME.id)?,
    })
}

/// The rows of a table, none where there is no table.
pub fn rows_of(table: &Option<Table>) -> &[(u32, Props)]
    ensures { result.now ≡ rows_of table.now }
{
    match table {
        Some(table) => table.rows(),
        None => &[],
    }
}

/// Pushes the lines of recipients.
fn push_recipients(
    alloc: Global,
    lines: &mut Vec<DataLine>,
    recipients: &[(u32, Props)],
) -> Result<(), AllocError>
    ensures { OnOk result (lines.new.items ≡ lines.old.items ++ map recipient_line recipients.now) }
{
    for recipient in recipients {
        lines.push(recipient_line(alloc, recipient)?)?;
    }
    Ok(())
}

/// How many bytes the value of this id has, 0 where there is none.
fn length_at(props: &Props, id: u16) -> u64
    ensures { result ≡ length_of (find id props.now) }
{
    match props.get(id) {
        Some(value) => value.len() as u64,
        None => 0,
    }
}

/// The line of an attachment.
fn attachment_line(alloc: Global, part: &Part) -> Result<DataLine, AllocError>
    ensures { IfOk result (λ line. line ≡ attachment_line part.now) }
{
    Ok(DataLine::Attachment {
        id: part.nid,
        len: length_at(&part.props, PID_TAG_ATTACH_DATA_BINARY.id),
        name: text_of(alloc, &part.props, PID_TAG_ATTACH_FILENAME.id)?,
    })
}

/// Pushes the lines of attachments.
fn push_attachments(
    alloc: Global,
    lines: &mut Vec<DataLine>,
    parts: &[Part],
) -> Result<(), AllocError>
    ensures { OnOk result (lines.new.items ≡ lines.old.items ++ map attachment_line parts.now) }
{
    for part in parts {
        lines.push(attachment_line(alloc, part)?)?;
    }
    Ok(())
}

/// The lines that tell of a message.
pub(crate) fn detail_lines(alloc: Global, mail: &Mail) -> Result<Vec<DataLine>, AllocError>
    ensures { IfOk result (λ lines. lines.items ≡ detail_lines mail.now) }
{
    let message = mail.message();
    let mut lines = Vec::new(alloc);
    push_properties(&mut lines, message.props.values())?;
    push_recipients(alloc, &mut lines, rows_of(&message.recipients))?;
    push_attachments(alloc, &mut lines, message.parts.as_slice())?;
    Ok(lines)
}
