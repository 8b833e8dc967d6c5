//! A table: columns, and rows that ascend strictly by id.
ghost use Rattle.std.specs.Prelude.{◌≡◌, [], IfOk, IsTrue, length, option_copied};

use crate::column::Column;
use crate::keyed::{Keyed, find_keyed};
use crate::props::Props;
use pst_base::Subs;
use std::alloc::{AllocError, Global};
use std::marker::Model;

/// The columns of a table, the four end offsets of its rows ([MS-PST] 2.3.4.1), the rows, each an id and cells, strictly ascending by id, and the subnodes that none of these uses. Contracts see a `Tab`.
#[derive(Debug, Drop)]
pub struct Table {
    pub columns: Vec<Column>,
    pub ends: [u16; 4],
    pub rows: Vec<(u32, Props)>,
    pub kept: Subs,
}

impl Model for Table {
    ghost use Rattle.mapi_values.specs.Tables.{Tab, IsTable};

    ghost Value = { Tab };

    ghost view = { λ t. record { columns = t.columns.items; ends = t.ends; rows = t.rows.items; kept = t.kept } };

    ghost invariant = { λ t. IsTable (record { columns = t.columns.items; ends = t.ends; rows = t.rows.items; kept = t.kept }) };
}

impl Keyed for (u32, Props) {
    ghost key_of = { λ r. r.0 };

    fn key(&self) -> u32 {
        self.0
    }
}

impl Table {
    ghost use Rattle.mapi_values.specs.Columns.{is_layout};
    ghost use Rattle.mapi_values.specs.Tables.{IsTable, find_row};

    /// A table without rows and kept subnodes, whose columns have a layout with these end offsets. Takes no memory.
    pub fn new(alloc: Global, columns: Vec<Column>, ends: [u16; 4]) -> Table
        requires { IsTrue (is_layout columns.items ends) }
        ensures columns { result.columns ≡ columns.items }
        ensures ends { result.ends ≡ ends }
        ensures rows { result.rows ≡ [] }
        ensures kept { result.kept ≡ [] }
    {
        Table {
            columns,
            ends,
            rows: Vec::new(alloc),
            kept: Subs::new(alloc),
        }
    }

    /// The table of these parts, which it keeps.
    pub fn from_parts(
        columns: Vec<Column>,
        ends: [u16; 4],
        rows: Vec<(u32, Props)>,
        kept: Subs,
    ) -> Table
        requires { IsTable (record { columns = columns.items; ends = ends; rows = rows.items; kept = kept }) }
        ensures columns { result.columns ≡ columns.items }
        ensures ends { result.ends ≡ ends }
        ensures rows { result.rows ≡ rows.items }
        ensures kept { result.kept ≡ kept }
    {
        Table {
            columns,
            ends,
            rows,
            kept,
        }
    }

    /// The columns.
    pub fn columns(&self) -> &[Column]
        ensures value { result.now ≡ self.now.columns }
        ensures table { IsTable self.now }
    {
        self.columns.as_slice()
    }

    /// The end offsets in a row of the cells of 8 and 4 bytes, those of 2 bytes, those of 1 byte, and the existence bits. The last is the size of a row.
    pub fn ends(&self) -> [u16; 4]
        ensures { result ≡ self.now.ends }
    {
        self.ends
    }

    /// The rows, each an id and cells, ascending by id.
    pub fn rows(&self) -> &[(u32, Props)]
        ensures value { result.now ≡ self.now.rows }
        ensures len { length result.now ≡ length self.now.rows }
        ensures table { IsTable self.now }
    {
        self.rows.as_slice()
    }

    /// The subnodes that none of the table's parts uses.
    pub fn kept(&self) -> &Subs
        ensures { result.now ≡ self.now.kept }
    {
        &self.kept
    }

    /// The row with this id.
    pub fn row(&self, id: u32) -> Option<&(u32, Props)>
        ensures { option_copied result ≡ find_row id self.now.rows }
    {
        find_keyed(self.rows.as_slice(), id)
    }

    /// The same table again.
    pub fn copy(&self, alloc: Global) -> Result<Table, AllocError>
        ensures { IfOk result (λ t. t ≡ self.now) }
    {
        let columns = Vec::from_slice(alloc, self.columns.as_slice())?;
        let mut rows = Vec::with_capacity(alloc, self.rows.len())?;
        for row in self.rows.iter() {
            rows.push((row.0, row.1.copy(alloc)?))?;
        }
        Ok(Table {
            columns,
            ends: self.ends,
            rows,
            kept: self.kept.copy(alloc)?,
        })
    }
}
