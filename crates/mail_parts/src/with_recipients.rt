//! Messages with other recipients.
ghost use Rattle.std.specs.Prelude.{◌≡◌, ◌≤◌, ◌^◌, None, Some, IfOk, if◌then◌else◌};
ghost use Rattle.mail_tree.specs.Parts.{has_recipient, is_wide, new_row, next_row, recipient_props, recipient_tags, recipients_for, with_recipient, without_recipient};

use column_layout::completed;
use mail_draft::{put_number, put_text};
use mail_objects::Mail;
use mail_tree::recipients_table;
use mapi_values::tags::{
    PID_TAG_ADDRESS_TYPE, PID_TAG_DISPLAY_NAME, PID_TAG_EMAIL_ADDRESS, PID_TAG_RECIPIENT_TYPE,
};
use mapi_values::{Message, Props, Table, Tag, Units, drop_row, put_row};
use std::alloc::{AllocError, Global};

/// The columns that a table of recipients has: types, names, address types and addresses.
const RECIPIENT_TAGS: [Tag; 4] = [
    PID_TAG_RECIPIENT_TYPE,
    PID_TAG_DISPLAY_NAME,
    PID_TAG_ADDRESS_TYPE,
    PID_TAG_EMAIL_ADDRESS,
];

/// The values of a recipient, whose address is one of SMTP.
pub(crate) fn recipient_props(
    alloc: Global,
    kind: u32,
    address: &Units,
    name: &Units,
) -> Result<Props, AllocError>
    ensures { IfOk result (λ p. p ≡ recipient_props kind address.now name.now) }
{
    let smtp = Units::from_vec(Vec::from_slice(alloc, &[83, 77, 84, 80])?);
    let mut props = Props::new(alloc);
    put_number(
        alloc,
        &mut props,
        PID_TAG_RECIPIENT_TYPE.id,
        u64::from(kind),
    )?;
    put_text(alloc, &mut props, PID_TAG_DISPLAY_NAME.id, name)?;
    put_text(alloc, &mut props, PID_TAG_ADDRESS_TYPE.id, &smtp)?;
    put_text(alloc, &mut props, PID_TAG_EMAIL_ADDRESS.id, address)?;
    Ok(props)
}

/// The row that follows the greatest, the first where there is none. It may be past the last one.
pub(crate) fn next_row(rows: &[(u32, Props)]) -> u64
    ensures value { result ≡ next_row rows.now }
    ensures few { result ≤ 2 ^ 32 }
{
    let mut next = 0;
    for row in rows {
        next = next.max(u64::from(row.0) + 1);
    }
    next
}

/// The row of a new recipient. Where none is left, changes are planned with the last one.
pub(crate) fn new_row(row: u64) -> u32
    ensures { result ≡ new_row row }
{
    row.min(u64::from(u32::MAX)) as u32
}

/// The table of recipients with all columns of one, a new one where there is none; `None` where it would have more than 255.
fn recipients_for(alloc: Global, table: Option<Table>) -> Result<Option<Table>, AllocError>
    ensures { IfOk result (λ t. t ≡ (if is_wide recipient_tags table then None else Some (recipients_for table))) }
{
    match table {
        Some(table) => completed(alloc, &RECIPIENT_TAGS, table),
        None => Ok(Some(recipients_table(alloc)?.into_table())),
    }
}

/// The message with a recipient of these values in a row; `None` where its table would have more than 255 columns. It is lost with an `Err`.
#[tactic(auto, unfolding(mail_objects::specs::Message::is_formed))]
pub(crate) fn with_recipient(
    alloc: Global,
    mail: Mail,
    row: u32,
    props: &Props,
) -> Result<Option<Mail>, AllocError>
    ensures { IfOk result (λ m. m ≡ (if is_wide recipient_tags mail.recipients then None else Some (with_recipient row props.now mail))) }
{
    let message = mail.into_message();
    let Some(mut table) = recipients_for(alloc, message.recipients)? else {
        return Ok(None);
    };
    put_row(alloc, &mut table, row, props)?;
    Ok(Some(Mail::new(Message {
        nid: message.nid,
        folder: message.folder,
        props: message.props,
        recipients: Some(table),
        attachments: message.attachments,
        parts: message.parts,
        kept: message.kept,
    })))
}

/// Whether a message has a recipient in this row.
pub(crate) fn has_recipient(mail: &Mail, row: u32) -> bool
    ensures { result ≡ has_recipient row mail.now }
{
    match &mail.message().recipients {
        Some(table) => table.row(row).is_some(),
        None => false,
    }
}

/// The message without the recipient in this row.
#[tactic(auto, unfolding(mail_objects::specs::Message::is_formed))]
pub(crate) fn without_recipient(mail: Mail, row: u32) -> Mail
    ensures { result ≡ without_recipient row mail }
{
    let message = mail.into_message();
    let mut recipients = message.recipients;
    if let Some(table) = &mut recipients {
        let _was_there = drop_row(table, row);
    }
    Mail::new(Message {
        nid: message.nid,
        folder: message.folder,
        props: message.props,
        recipients,
        attachments: message.attachments,
        parts: message.parts,
        kept: message.kept,
    })
}
