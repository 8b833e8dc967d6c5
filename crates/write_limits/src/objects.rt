//! The room for objects.
ghost use Rattle.std.specs.Prelude.{◌≡◌, ◌^◌, min};
ghost use Rattle.write_limits.specs.Space.{message_space, option_space, parts_space, props_space, table_space};

use crate::sums::{add, kept_space};
use crate::values::{
    add_cells_blocks, add_values_blocks, add_values_bytes, heap_blocks, rows_bytes,
};
use mapi_values::{Message, Part, Props, Table};

/// The room for a property context with these values.
#[tactic(auto, unfolding(crate::specs::Space::props_space))]
pub fn props_space(props: &Props) -> u64
    ensures { result ≡ min (props_space props.now) (2 ^ 60) }
{
    let values = props.values();
    let bytes = add_values_bytes(8 * values.len() as u128, values);
    add_values_blocks(heap_blocks(bytes), values)
}

/// The room for a table, with the subnodes that none of its parts uses.
#[tactic(auto, unfolding(crate::specs::Space::table_space))]
pub fn table_space(table: &Table) -> u64
    ensures { result ≡ min (table_space table.now) (2 ^ 60) }
{
    let rows = table.rows();
    let blocks = heap_blocks(rows_bytes(table.ends()[3], rows));
    add(add_cells_blocks(blocks, rows), kept_space(table.kept()))
}

/// The room for a table, if there is one.
fn option_space(table: &Option<Table>) -> u64
    ensures { result ≡ min (option_space table.now) (2 ^ 60) }
{
    match table {
        Some(table) => table_space(table),
        None => 0,
    }
}

/// The room for attachments.
fn parts_space(parts: &[Part]) -> u64
    ensures { result ≡ min (parts_space parts.now) (2 ^ 60) }
{
    let mut total = 0;
    for part in parts {
        let part = add(props_space(&part.props), kept_space(&part.kept));
        total = add(total, part);
    }
    total
}

/// The room for a message: its values, its tables, its attachments and its other subnodes.
#[tactic(auto, unfolding(crate::specs::Space::message_space))]
pub fn message_space(message: &Message) -> u64
    ensures { result ≡ min (message_space message.now) (2 ^ 60) }
{
    let tables = add(
        option_space(&message.recipients),
        option_space(&message.attachments),
    );
    let own = add(props_space(&message.props), tables);
    let below = add(
        parts_space(message.parts.as_slice()),
        kept_space(&message.kept),
    );
    add(own, below)
}
