//! The tables that the store makes, without rows.
ghost use Rattle.std.specs.Prelude.{◌≡◌, IfOk};
ghost use Rattle.mail_tree.specs.Columns.{attachments_table, contents_table, hierarchy_table, recipients_table};

use mail_objects::TableNode;
use mapi_values::tags::{
    PID_TAG_ADDRESS_TYPE, PID_TAG_ATTACH_FILENAME, PID_TAG_ATTACH_METHOD, PID_TAG_ATTACH_SIZE,
    PID_TAG_CLIENT_SUBMIT_TIME, PID_TAG_CONTENT_COUNT, PID_TAG_CONTENT_UNREAD_COUNT,
    PID_TAG_CREATION_TIME, PID_TAG_DISPLAY_NAME, PID_TAG_EMAIL_ADDRESS,
    PID_TAG_LAST_MODIFICATION_TIME, PID_TAG_LTP_ROW_ID, PID_TAG_LTP_ROW_VER, PID_TAG_MESSAGE_CLASS,
    PID_TAG_MESSAGE_DELIVERY_TIME, PID_TAG_MESSAGE_FLAGS, PID_TAG_MESSAGE_SIZE,
    PID_TAG_RECIPIENT_TYPE, PID_TAG_RENDERING_POSITION, PID_TAG_SUBFOLDERS, PID_TAG_SUBJECT,
};
use mapi_values::{Column, Table};
use pst_base::Nid;
use std::alloc::{AllocError, Global};

/// A column of this tag, with its place in a row, its width and its bit.
macro_rules! column {
    ($tag:expr, $at:expr, $width:expr, $bit:expr) => {
        Column {
            tag: $tag,
            at: $at,
            width: $width,
            bit: $bit,
        }
    };
}

/// The columns of a table of folders: names, counts, and whether there are folders below.
const HIERARCHY: [Column; 6] = [
    column!(PID_TAG_DISPLAY_NAME, 8, 4, 2),
    column!(PID_TAG_CONTENT_COUNT, 12, 4, 3),
    column!(PID_TAG_CONTENT_UNREAD_COUNT, 16, 4, 4),
    column!(PID_TAG_SUBFOLDERS, 20, 1, 5),
    column!(PID_TAG_LTP_ROW_ID, 0, 4, 0),
    column!(PID_TAG_LTP_ROW_VER, 4, 4, 1),
];

/// The columns of a table of messages: classes, subjects, times, flags and sizes.
const CONTENTS: [Column; 10] = [
    column!(PID_TAG_MESSAGE_CLASS, 8, 4, 2),
    column!(PID_TAG_SUBJECT, 12, 4, 3),
    column!(PID_TAG_CLIENT_SUBMIT_TIME, 16, 8, 4),
    column!(PID_TAG_MESSAGE_DELIVERY_TIME, 24, 8, 5),
    column!(PID_TAG_MESSAGE_FLAGS, 32, 4, 6),
    column!(PID_TAG_MESSAGE_SIZE, 36, 4, 7),
    column!(PID_TAG_CREATION_TIME, 40, 8, 8),
    column!(PID_TAG_LAST_MODIFICATION_TIME, 48, 8, 9),
    column!(PID_TAG_LTP_ROW_ID, 0, 4, 0),
    column!(PID_TAG_LTP_ROW_VER, 4, 4, 1),
];

/// The columns of a table of recipients: types, names, address types and addresses.
const RECIPIENTS: [Column; 6] = [
    column!(PID_TAG_RECIPIENT_TYPE, 8, 4, 2),
    column!(PID_TAG_DISPLAY_NAME, 12, 4, 3),
    column!(PID_TAG_ADDRESS_TYPE, 16, 4, 4),
    column!(PID_TAG_EMAIL_ADDRESS, 20, 4, 5),
    column!(PID_TAG_LTP_ROW_ID, 0, 4, 0),
    column!(PID_TAG_LTP_ROW_VER, 4, 4, 1),
];

/// The columns of a table of attachments: sizes, names, methods and places in the text.
const ATTACHMENTS: [Column; 6] = [
    column!(PID_TAG_ATTACH_SIZE, 8, 4, 2),
    column!(PID_TAG_ATTACH_FILENAME, 12, 4, 3),
    column!(PID_TAG_ATTACH_METHOD, 16, 4, 4),
    column!(PID_TAG_RENDERING_POSITION, 20, 4, 5),
    column!(PID_TAG_LTP_ROW_ID, 0, 4, 0),
    column!(PID_TAG_LTP_ROW_VER, 4, 4, 1),
];

/// The table of a folder's folders, of which there are none.
pub fn hierarchy_table(alloc: Global) -> Result<TableNode, AllocError>
    ensures { IfOk result (λ t. t ≡ hierarchy_table) }
{
    let columns = Vec::from_slice(alloc, &HIERARCHY)?;
    let table = Table::new(alloc, columns, [20, 20, 21, 22]);
    Ok(TableNode::new(Nid { bits: 0 }, table))
}

/// The table of a folder's messages, of which there are none, and that of what is associated with it.
pub fn contents_table(alloc: Global) -> Result<TableNode, AllocError>
    ensures { IfOk result (λ t. t ≡ contents_table) }
{
    let columns = Vec::from_slice(alloc, &CONTENTS)?;
    let table = Table::new(alloc, columns, [56, 56, 56, 58]);
    Ok(TableNode::new(Nid { bits: 0 }, table))
}

/// The table of a message's recipients, of which there are none.
pub fn recipients_table(alloc: Global) -> Result<TableNode, AllocError>
    ensures { IfOk result (λ t. t ≡ recipients_table) }
{
    let columns = Vec::from_slice(alloc, &RECIPIENTS)?;
    let table = Table::new(alloc, columns, [24, 24, 24, 25]);
    Ok(TableNode::new(Nid { bits: 0 }, table))
}

/// The table of a message's attachments, of which there are none.
pub fn attachments_table(alloc: Global) -> Result<TableNode, AllocError>
    ensures { IfOk result (λ t. t ≡ attachments_table) }
{
    let columns = Vec::from_slice(alloc, &ATTACHMENTS)?;
    let table = Table::new(alloc, columns, [24, 24, 24, 25]);
    Ok(TableNode::new(Nid { bits: 0 }, table))
}
