//! The subnodes that a table doesn't use.
ghost use Rattle.std.specs.Prelude.{◌≡◌, ◌<◌, ◌+◌, ◌++◌, ℕ, length, map, All, IfOk, OnOk, true};
ghost use Rattle.std.specs.List.{list_all};
ghost use Rattle.std.specs.Ordering.{nat_cmp};
ghost use Rattle.std.specs.BTreeSet.{contains as has_key};
ghost use Rattle.mapi_values.specs.Columns.{lies};
ghost use Rattle.table_context.specs.Answers.{raw_seen};
ghost use Rattle.table_context.specs.Rows.{cell_names, row_names, subnode, used};
ghost use Rattle.table_context.specs.Rows.{is_among, others};

use crate::cells::has_cell;
use crate::rows::RawRow;
use mapi_values::{Column, fixed_width};
use node_values::Finder;
use pst_base::{Subs, u32_at};
use std::alloc::{AllocError, Global};
use std::collections::BTreeSet;

/// Puts the subnode that an id names at the end, if it names one.
#[tactic(auto, unfolding(crate::specs::Rows::subnode))]
fn push_subnode(used: &mut Vec<u32>, hnid: u32) -> Result<(), AllocError>
    ensures { OnOk result (used.new.items ≡ used.old.items ++ subnode hnid) }
{
    if hnid % 32 != 0 {
        used.push(hnid)?;
    }
    Ok(())
}

/// Puts the subnode that a column's cell names at the end, if it names one.
#[tactic(auto, unfolding(crate::specs::Rows::cell_names))]
fn push_cell(
    used: &mut Vec<u32>,
    column: &Column,
    from: usize,
    row: &[u8],
) -> Result<(), AllocError>
    requires { lies from (length row.now) column.now ≡ true }
    ensures { OnOk result (used.new.items ≡ used.old.items ++ cell_names from row.now column.now) }
{
    if !has_cell(row, from, column) {
        return Ok(());
    }
    match fixed_width(column.tag.kind) {
        Some(_) => Ok(()),
        None => push_subnode(used, u32_at(row, usize::from(column.at))),
    }
}

/// Puts the subnodes that the cells of a row name at the end.
fn push_row(
    used: &mut Vec<u32>,
    columns: &[Column],
    from: usize,
    row: &[u8],
) -> Result<(), AllocError>
    requires { list_all (lies from (length row.now)) columns.now ≡ true }
    ensures { OnOk result (used.new.items ≡ used.old.items ++ row_names from columns.now row.now) }
{
    for column in columns {
        push_cell(used, column, from, row)?;
    }
    Ok(())
}

/// The subnodes that the cells of rows name, and the one that holds the rows.
#[tactic(auto, unfolding(crate::specs::Rows::used))]
fn used(
    alloc: Global,
    columns: &[Column],
    from: usize,
    raws: &[RawRow],
    hnid: u32,
) -> Result<Vec<u32>, AllocError>
    requires { All (λ r. list_all (lies from (length r.bytes.now)) columns.now ≡ true) raws.now }
    ensures { IfOk result (λ ids. ids.items ≡ used from columns.now (map raw_seen raws.now) hnid) }
{
    let mut ids = Vec::new(alloc);
    for raw in raws {
        push_row(&mut ids, columns, from, raw.bytes)?;
    }
    push_subnode(&mut ids, hnid)?;
    Ok(ids)
}

/// The set of these ids.
fn set_of(alloc: Global, ids: &[u32]) -> Result<BTreeSet<u32>, AllocError>
    ensures { IfOk result (λ set. (id : ℕ) → has_key nat_cmp set id ≡ is_among ids.now id) }
{
    ids.iter().copied().collect(alloc)
}

/// The subnodes that a table with these rows doesn't use, each with what stands below it.
pub fn kept(
    alloc: Global,
    subs: &Finder,
    columns: &[Column],
    from: usize,
    raws: &[RawRow],
    hnid: u32,
) -> Result<Subs, AllocError>
    requires { All (λ r. list_all (lies from (length r.bytes.now)) columns.now ≡ true) raws.now }
    ensures { IfOk result (λ kept. kept ≡ others (used from columns.now (map raw_seen raws.now) hnid) subs.now) }
{
    let ids = used(alloc, columns, from, raws, hnid)?;
    subs.without(alloc, &set_of(alloc, ids.as_slice())?)
}
