//! Messages with other attachments.
ghost use Rattle.std.specs.Prelude.{◌≡◌, None, Some, true, IfOk, IfSome, IsSome, MatchOption, if◌then◌else◌, map};
ghost use Rattle.mapi_values.specs.Keyed.{put_key};
ghost use Rattle.mapi_values.specs.Messages.{AreNamed, are_others, part_id};
ghost use Rattle.mapi_values.specs.declared.part.Part.{Part};
ghost use Rattle.mail_objects.specs.Message.{part_is_formed};
ghost use Rattle.mail_tree.specs.Parts.{attachment_tags, attachments_for, is_wide, part_in, room_for, shown_anew, with_part, without_attachment};

use crate::part_places::{place, put_at};
use column_layout::{completed, has_columns};
use mail_objects::Mail;
use mail_tree::attachments_table;
use mapi_values::tags::{
    PID_TAG_ATTACH_FILENAME, PID_TAG_ATTACH_METHOD, PID_TAG_ATTACH_SIZE, PID_TAG_RENDERING_POSITION,
};
use mapi_values::{Message, Part, Table, Tag, drop_row, mirror, put_row};
use pst_base::{Nid, Subs};
use std::alloc::{AllocError, Global};

/// The columns that a table of attachments has: sizes, names, methods and places in the text.
const ATTACHMENT_TAGS: [Tag; 4] = [
    PID_TAG_ATTACH_SIZE,
    PID_TAG_ATTACH_FILENAME,
    PID_TAG_ATTACH_METHOD,
    PID_TAG_RENDERING_POSITION,
];

/// The last index of a node or a subnode.
pub const LAST_INDEX: u64 = 134_217_727;

/// A table of attachments in which the row of each shows it. The table is lost with an `Err`.
fn shown_anew(alloc: Global, parts: &[Part], table: Table) -> Result<Table, AllocError>
    requires { map part_id parts.now ≡ map (λ r. r.0) table.rows }
    ensures { IfOk result (λ t. t ≡ shown_anew parts.now table) }
{
    let mut rows = Vec::with_capacity(alloc, parts.len())?;
    for part in parts {
        let cells = mirror(alloc, table.columns(), &part.props)?;
        rows.push((part.nid.bits, cells))?;
    }
    Ok(Table::from_parts(table.columns, table.ends, rows, table.kept))
}

/// The table of these attachments with all columns of one, a new one where there is none; `None` where it would have more than 255. Where it gets a column, the row of each shows it anew.
fn attachments_for(
    alloc: Global,
    parts: &[Part],
    table: Option<Table>,
) -> Result<Option<Table>, AllocError>
    requires { AreNamed parts.now table }
    ensures { IfOk result (λ t. t ≡ (if is_wide attachment_tags table then None else Some (attachments_for parts.now table))) }
{
    let Some(table) = table else {
        return Ok(Some(attachments_table(alloc)?.into_table()));
    };
    let had = has_columns(table.columns(), &ATTACHMENT_TAGS);
    match completed(alloc, &ATTACHMENT_TAGS, table)? {
        Some(table) => {
            if had {
                Ok(Some(table))
            } else {
                Ok(Some(shown_anew(alloc, parts, table)?))
            }
        }
        None => Ok(None),
    }
}

/// The message that an attachment of this index is put into: where no index is left, it is without what it keeps, and changes are planned with the last index.
#[tactic(auto, unfolding(mail_objects::specs::Message::is_formed))]
pub(crate) fn room_for(alloc: Global, index: u64, mail: Mail) -> Mail
    ensures value { result ≡ room_for index mail }
    ensures others { are_others mail.parts mail.kept ≡ true }
{
    let message = mail.into_message();
    let mut kept = message.kept;
    if index > LAST_INDEX {
        kept = Subs::new(alloc);
    }
    Mail::new(Message {
        nid: message.nid,
        folder: message.folder,
        props: message.props,
        recipients: message.recipients,
        attachments: message.attachments,
        parts: message.parts,
        kept,
    })
}

/// The message with a table of attachments to which one may be added; `None` where it would have more than 255 columns. It is lost with an `Err`.
#[tactic(auto, unfolding(mail_objects::specs::Message::is_formed))]
pub(crate) fn with_table(alloc: Global, mail: Mail) -> Result<Option<Mail>, AllocError>
    ensures { IfOk result (λ m. m ≡ (if is_wide attachment_tags mail.attachments then None else Some (record mail { attachments = Some (attachments_for mail.parts mail.attachments) }))) }
{
    let message = mail.into_message();
    let attachments = message.attachments;
    let Some(table) = attachments_for(alloc, message.parts.as_slice(), attachments)? else {
        return Ok(None);
    };
    Ok(Some(Mail::new(Message {
        nid: message.nid,
        folder: message.folder,
        props: message.props,
        recipients: message.recipients,
        attachments: Some(table),
        parts: message.parts,
        kept: message.kept,
    })))
}

/// The message with this in place of the attachment of its id, or beside those of other ids, and shown by its row. It is lost with an `Err`.
#[tactic(auto, unfolding(mail_objects::specs::Message::is_formed))]
pub(crate) fn with_part(alloc: Global, mail: Mail, part: Part) -> Result<Mail, AllocError>
    requires table { IsSome mail.attachments }
    requires free { are_others (put_key part_id part mail.parts) mail.kept ≡ true }
    requires formed { part_is_formed part ≡ true }
    ensures { IfOk result (λ m. m ≡ with_part part mail) }
{
    let spot = place(&mail, part.nid);
    let message = mail.into_message();
    let mut attachments = message.attachments;
    if let Some(table) = &mut attachments {
        put_row(alloc, table, part.nid.bits, &part.props)?;
    }
    let mut parts = message.parts;
    put_at(&mut parts, spot, part)?;
    Ok(Mail::new(Message {
        nid: message.nid,
        folder: message.folder,
        props: message.props,
        recipients: message.recipients,
        attachments,
        parts,
        kept: message.kept,
    }))
}

/// Takes the attachment with this id, and its row, from a message, which is left with the others; `None` where it has none.
#[tactic(auto, unfolding(mail_objects::specs::Message::is_formed))]
pub(crate) fn take_attachment(mail: Mail, nid: Nid) -> Option<(Mail, Part)>
    ensures taken { MatchOption result (part_in nid.bits mail ≡ None) (λ taken. (part_in nid.bits mail ≡ Some taken.1) × (taken.0 ≡ without_attachment nid.bits mail)) }
    ensures table { IfSome result (λ taken. IsSome taken.0.attachments) }
    ensures free { IfSome result (λ taken. (part : Part) → part_id part ≡ nid.bits → are_others (put_key part_id part taken.0.parts) taken.0.kept ≡ true) }
    ensures formed { IfSome result (λ taken. part_is_formed taken.1 ≡ true) }
    ensures back { IfSome result (λ taken. (part : Part) → part_id part ≡ nid.bits → with_part part taken.0 ≡ with_part part mail) }
{
    let Ok(i) = place(&mail, nid) else {
        return None;
    };
    let message = mail.into_message();
    let mut parts = message.parts;
    let part = parts.remove(i);
    let mut attachments = message.attachments;
    if let Some(table) = &mut attachments {
        let _was_there = drop_row(table, nid.bits);
    }
    let mail = Mail::new(Message {
        nid: message.nid,
        folder: message.folder,
        props: message.props,
        recipients: message.recipients,
        attachments,
        parts,
        kept: message.kept,
    });
    Some((mail, part))
}
