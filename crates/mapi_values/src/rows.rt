//! Rows of a table, put and removed.
ghost use Rattle.std.specs.Prelude.{◌≡◌, OnErr, OnOk, is_some};
ghost use Rattle.mapi_values.specs.Tables.{drop_row, find_row, mirror, put_row};

use crate::keyed::{drop_keyed, put_keyed};
use crate::mirrors::mirror;
use crate::props::Props;
use crate::table::Table;
use std::alloc::{AllocError, Global};

/// Gives a table the row of this id that shows an object, in place of its row of that id. All other rows stay. An `Err` changes nothing.
pub fn put_row(alloc: Global, table: &mut Table, id: u32, props: &Props) -> Result<(), AllocError>
    ensures row { OnOk result (table.new.rows ≡ put_row id (mirror table.old.columns props.now) table.old.rows) }
    ensures err { OnErr result (table.new.rows ≡ table.old.rows) }
    ensures columns { table.new.columns ≡ table.old.columns }
    ensures ends { table.new.ends ≡ table.old.ends }
    ensures kept { table.new.kept ≡ table.old.kept }
{
    let cells = mirror(alloc, table.columns.as_slice(), props)?;
    put_keyed(&mut table.rows, (id, cells))
}

/// Removes the row of this id, and says whether there was one. All other rows stay. Takes no memory.
pub fn drop_row(table: &mut Table, id: u32) -> bool
    ensures others { table.new.rows ≡ drop_row id table.old.rows }
    ensures found { result ≡ is_some (find_row id table.old.rows) }
    ensures columns { table.new.columns ≡ table.old.columns }
    ensures ends { table.new.ends ≡ table.old.ends }
    ensures kept { table.new.kept ≡ table.old.kept }
{
    drop_keyed(&mut table.rows, id)
}
