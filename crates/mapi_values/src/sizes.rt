//! The size that a message tells of itself.
ghost use Rattle.std.specs.Prelude.{◌≡◌, ◌+◌, ◌≤◌, min};
ghost use Rattle.mapi_values.specs.Messages.{greatest, parts_size, rows_size, size, table_size, value_size, values_size};

use crate::message::Message;
use crate::part::Part;
use crate::props::Props;
use crate::table::Table;
use crate::tags::{ID_LTP_ROW_ID, ID_LTP_ROW_VER, ID_MESSAGE_SIZE};
use crate::value::Value;

/// The greatest size that a message tells, the greatest number of kind 0003.
const GREATEST: u64 = 2_147_483_647;

/// A size with so many bytes more, and no more than the greatest.
fn add_bytes(total: u64, len: usize) -> u64
    requires { total ≤ greatest }
    ensures { result ≡ min (total + len) greatest }
{
    (total + (len as u64).min(GREATEST)).min(GREATEST)
}

/// How many bytes a value counts in the size of its message.
#[tactic(auto, unfolding(crate::specs::Messages::value_size))]
fn value_size(value: &Value) -> usize
    ensures { result ≡ value_size value.now }
{
    match value.id() {
        ID_MESSAGE_SIZE | ID_LTP_ROW_ID | ID_LTP_ROW_VER => 0,
        _ => value.len(),
    }
}

/// A size with these values more, and no more than the greatest.
fn add_values(total: u64, values: &[Value]) -> u64
    requires { total ≤ greatest }
    ensures { result ≡ min (total + values_size values.now) greatest }
{
    let mut total = total;
    for value in values {
        total = add_bytes(total, value_size(value));
    }
    total
}

/// A size with the cells of these rows more, and no more than the greatest.
fn add_rows(total: u64, rows: &[(u32, Props)]) -> u64
    requires { total ≤ greatest }
    ensures { result ≡ min (total + rows_size rows.now) greatest }
{
    let mut total = total;
    for row in rows {
        total = add_values(total, row.1.values());
    }
    total
}

/// A size with these attachments more, and no more than the greatest.
fn add_parts(total: u64, parts: &[Part]) -> u64
    requires { total ≤ greatest }
    ensures { result ≡ min (total + parts_size parts.now) greatest }
{
    let mut total = total;
    for part in parts {
        total = add_values(total, part.props.values());
    }
    total
}

/// A size with the cells of a table more if there is one, and no more than the greatest.
fn add_table(total: u64, table: &Option<Table>) -> u64
    requires { total ≤ greatest }
    ensures { result ≡ min (total + table_size table.now) greatest }
{
    match table {
        Some(table) => add_rows(total, table.rows()),
        None => total,
    }
}

/// The size of a message: the sum of the lengths of all values of the message, its recipients and its attachments, but for those of the ids 0E08, 67F2 and 67F3, and at most 2,147,483,647.
#[tactic(auto, unfolding(crate::specs::Messages::size))]
pub fn size(message: &Message) -> u32
    ensures { result ≡ size message.now }
{
    let total = add_values(0, message.props.values());
    let total = add_table(total, &message.recipients);
    add_parts(total, message.parts.as_slice()) as u32
}
