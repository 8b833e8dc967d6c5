//! The rows and the groups of a view as text.
ghost use Rattle.std.specs.Prelude.{◌≡◌, ◌++◌, IfOk, OnOk, map, option_copied, string_bytes};
ghost use Rattle.sorted_views.specs.Rows.{cell_of};
ghost use Rattle.session_lines.specs.Texts.{cell_text, count_text, group_text, groups_text, row_text, rows_text};

use mapi_values::{Table, Tag, Value};
use pst_base::Bytes;
use sorted_views::{ViewRow, cell_of, split_group};
use std::alloc::{AllocError, Global};
use std::fmt::Write;
use value_text::value_text;

/// Puts a cell at the end of a text.
#[tactic(auto, unfolding(crate::specs::Texts::cell_text))]
fn push_cell(alloc: Global, text: &mut String, cell: Option<&Value>) -> Result<(), AllocError>
    ensures { OnOk result (string_bytes text.new ≡ string_bytes text.old ++ cell_text (option_copied cell.entry)) }
{
    match cell {
        Some(value) => text.push_str(&value_text(alloc, value)?),
        None => text.push_str("none"),
    }
}

/// Puts the line of a row at the end of a text.
#[tactic(auto, unfolding(crate::specs::Texts::row_text, command_text::specs::Replies::id_text))]
fn push_row(
    alloc: Global,
    text: &mut String,
    id: u32,
    cell: Option<&Value>,
) -> Result<(), AllocError>
    ensures { OnOk result (string_bytes text.new ≡ string_bytes text.old ++ row_text id (option_copied cell.entry)) }
{
    write!(text, "- 0x{id:x} ")?;
    push_cell(alloc, text, cell)?;
    text.push('\n')
}

/// Puts the line of a group at the end of a text.
#[tactic(auto, unfolding(crate::specs::Texts::group_text))]
fn push_group(
    alloc: Global,
    text: &mut String,
    cell: Option<&Value>,
    count: usize,
) -> Result<(), AllocError>
    ensures { OnOk result (string_bytes text.new ≡ string_bytes text.old ++ group_text (option_copied cell.entry) count) }
{
    text.push_str("- ")?;
    push_cell(alloc, text, cell)?;
    writeln!(text, " {count}")
}

/// Puts the last line, how many there are, at the end of a text.
#[tactic(auto, unfolding(crate::specs::Texts::count_text))]
fn push_count(text: &mut String, count: usize) -> Result<(), AllocError>
    ensures { OnOk result (string_bytes text.new ≡ string_bytes text.old ++ count_text count) }
{
    writeln!(text, "ok {count}")
}

/// The bytes of the rows of a view: a line for each with its id and its cell, and one with their number. It fails only where memory runs out.
pub fn rows_text(
    alloc: Global,
    table: &Table,
    tag: Tag,
    rows: &[ViewRow],
) -> Result<Bytes, AllocError>
    ensures { IfOk result (λ bytes. bytes ≡ rows_text (cell_of table.now tag) rows.now) }
{
    let mut text = String::new(alloc);
    for row in rows {
        push_row(alloc, &mut text, row.id, cell_of(table, tag, row.id))?;
    }
    push_count(&mut text, rows.len())?;
    Ok(Bytes::from_vec(text.into_bytes()))
}

/// The bytes of the groups of a view: a line for each with the cell of its first row and how many rows it has, and one with the number of groups. It fails only where memory runs out.
pub fn groups_text(
    alloc: Global,
    table: &Table,
    tag: Tag,
    rows: &[ViewRow],
) -> Result<Bytes, AllocError>
    ensures { IfOk result (λ bytes. bytes ≡ groups_text (cell_of table.now tag) rows.now) }
{
    let mut text = String::new(alloc);
    let mut rest = rows;
    let mut count = 0;
    while let Some((first, length, behind)) = split_group(rest) {
        push_group(alloc, &mut text, cell_of(table, tag, first.id), length)?;
        rest = behind;
        count += 1;
    }
    push_count(&mut text, count)?;
    Ok(Bytes::from_vec(text.into_bytes()))
}
