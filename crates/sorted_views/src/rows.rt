//! Rows sorted by their keys.
ghost use Rattle.std.specs.Prelude.{◌≡◌, ◌++◌, Option, Some, None, IfOk, IfSome, OnOk, take, true, length, option_copied};
ghost use Rattle.std.specs.List.Sorted.{IsPermutation, IsSorted};
ghost use Rattle.mapi_values.specs.Values.{Val};
ghost use Rattle.restr_codec.specs.Kinds.{has_width, value_width};
ghost use Rattle.sorted_views.specs.Keys.{IsKey};
ghost use Rattle.sorted_views.specs.Rows.{AreKeyed, IsSortedView, cell_of, row_cmp, sorts_by};

use crate::key::{Key, has_keys, key_of};
use mapi_values::{Table, Tag, Value, has_column};
use restr_eval::good_of;
use std::alloc::{AllocError, Global};

/// Which way rows are listed.
#[derive(Clone, Copy, Debug, PartialEq, Eq)]
pub enum Direction {
    /// The least key first.
    Up,
    /// The greatest key first.
    Down,
}

/// A row of a view.
#[derive(Debug, PartialEq, Eq, PartialOrd, Ord, Drop)]
pub struct ViewRow {
    /// What its cell is sorted by, `None` where it has no cell of the column, or one whose length doesn't fit its kind.
    pub key: Option<Key>,
    /// The message's id.
    pub id: u32,
}

/// Whether rows can be sorted by a column: whether the table has it, and its kind has keys.
pub fn sorts_by(table: &Table, tag: Tag) -> bool
    ensures { result ≡ sorts_by table.now tag }
{
    has_column(table.columns(), tag.id, tag.kind) && has_keys(tag.kind)
}

/// The cell of a column in the row of an id, if there is one and its length fits its kind.
pub fn cell_of(table: &Table, tag: Tag, id: u32) -> Option<&Value>
    ensures value { option_copied result ≡ cell_of table.now tag id }
    ensures width { IfSome result (λ v. has_width (value_width v.now.kind) (length v.now.bytes) ≡ true) }
{
    match table.row(id) {
        Some(row) => good_of(tag, &row.1),
        None => None,
    }
}

/// The key of the row of an id.
fn key_at(alloc: Global, table: &Table, tag: Tag, id: u32) -> Result<Option<Key>, AllocError>
    ensures { IfOk result (IsKey (cell_of table.now tag id)) }
{
    match cell_of(table, tag, id) {
        Some(value) => Ok(Some(key_of(alloc, value)?)),
        None => Ok(None),
    }
}

/// The rows of these ids with their keys.
fn keyed(alloc: Global, table: &Table, tag: Tag, ids: &[u32]) -> Result<Vec<ViewRow>, AllocError>
    ensures { IfOk result (λ rows. AreKeyed (cell_of table.now tag) ids.now rows.items) }
{
    let mut rows = Vec::with_capacity(alloc, ids.len())?;
    for id in ids {
        let key = key_at(alloc, table, tag, *id)?;
        rows.push(ViewRow { key, id: *id })?;
    }
    Ok(rows)
}

/// The rows of these ids, sorted by the keys of a column and then by their ids, or the other way round. It fails only where memory runs out.
pub fn sort_rows(
    alloc: Global,
    table: &Table,
    tag: Tag,
    direction: Direction,
    ids: &[u32],
) -> Result<Vec<ViewRow>, AllocError>
    ensures { IfOk result (λ rows. IsSortedView (cell_of table.now tag) direction ids.now rows.items) }
{
    let mut rows = keyed(alloc, table, tag, ids)?;
    rows.sort_unstable();
    match direction {
        Direction::Up => {}
        Direction::Down => rows.reverse(),
    }
    Ok(rows)
}
