//! Whether an object may be written.
ghost use Rattle.std.specs.Prelude.{◌≡◌};
ghost use Rattle.std.specs.List.{list_all};
ghost use Rattle.write_limits.specs.Limits.{few_subnodes, matrix, own_subnodes, table_subnodes, message_fits, one_if_some, option_fits, part_fits, props_fit, table_fits};

use crate::counts::{add, add_long_cells, add_long_values, add_rows_bytes, direct};
use mapi_values::{Message, Part, Props, Table};
use pst_base::Subs;

/// Whether a property context with these values and these other subnodes may be written: at most 173,400 subnodes stand directly in its node, where each value of more than 3580 bytes has one.
#[tactic(auto, unfolding(crate::specs::Limits::props_fit))]
pub fn props_fit(props: &Props, rest: &Subs) -> bool
    ensures { result ≡ props_fit props.now rest.now }
{
    let total = add(0, direct(rest));
    add_long_values(total, props.values()) <= 173_400
}

/// One for the rows of a table, if they take more than a heap's item.
#[tactic(auto, unfolding(crate::specs::Limits::matrix))]
fn matrix(count: usize, size: u16) -> usize
    ensures { result ≡ matrix count size }
{
    if count.saturating_mul(usize::from(size)) > 3580 {
        1
    } else {
        0
    }
}

/// Whether the subnodes of a table are few enough.
fn has_few_subnodes(table: &Table) -> bool
    ensures { result ≡ few_subnodes (table_subnodes table.now) }
{
    let total = add(0, direct(table.kept()));
    let total = add(total, matrix(table.rows().len(), table.ends()[3]));
    add_long_cells(total, table.rows()) <= 173_400
}

/// Whether a table may be written: it has at most 500,000 rows and 255 columns, a row has 1 to 8176 bytes, the cells in its heap take at most 200,000,000 bytes with 4 more for each, and at most 173,400 subnodes stand directly in its node.
#[tactic(auto, unfolding(crate::specs::Limits::table_fits))]
pub fn table_fits(table: &Table) -> bool
    ensures { result ≡ table_fits table.now }
{
    let size = table.ends()[3];
    table.rows().len() <= 500_000
        && table.columns().len() <= 255
        && 1 <= size
        && size <= 8176
        && add_rows_bytes(0, table.rows()) <= 200_000_000
        && has_few_subnodes(table)
}

/// Whether a table may be written, if there is one.
fn option_fits(table: &Option<Table>) -> bool
    ensures { result ≡ option_fits table.now }
{
    match table {
        Some(table) => table_fits(table),
        None => true,
    }
}

/// One for a table that is there.
fn one_if_some(table: &Option<Table>) -> usize
    ensures { result ≡ one_if_some table.now }
{
    match table {
        Some(_) => 1,
        None => 0,
    }
}

/// Whether each attachment may be written.
fn parts_fit(parts: &[Part]) -> bool
    ensures { result ≡ list_all part_fits parts.now }
{
    parts.iter().all(|part| props_fit(&part.props, &part.kept))
}

/// Whether the subnodes of a message are few enough.
fn message_has_few_subnodes(message: &Message) -> bool
    ensures { result ≡ few_subnodes (own_subnodes message.now) }
{
    let total = add(0, direct(&message.kept));
    let total = add(total, one_if_some(&message.recipients));
    let total = add(total, one_if_some(&message.attachments));
    let total = add(total, message.parts.len());
    add_long_values(total, message.props.values()) <= 173_400
}

/// Whether a message may be written: its tables and its attachments may, and at most 173,400 subnodes stand directly in its node.
#[tactic(auto, unfolding(crate::specs::Limits::message_fits))]
pub fn message_fits(message: &Message) -> bool
    ensures { result ≡ message_fits message.now }
{
    option_fits(&message.recipients)
        && option_fits(&message.attachments)
        && parts_fit(message.parts.as_slice())
        && message_has_few_subnodes(message)
}
