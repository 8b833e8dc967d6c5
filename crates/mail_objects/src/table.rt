//! A node that is a table.
ghost use Rattle.std.specs.Prelude.{◌≡◌, true, IfOk};

use mapi_values::{Props, Table, drop_row, put_row};
use pst_base::Nid;
use std::alloc::{AllocError, Global};
use std::marker::Model;

/// A node that is a table, as the list of a folder's messages: its parent and the table, which keeps subnodes by ascending ids. Contracts see a `Tbl`.
#[derive(Debug, Drop)]
pub struct TableNode {
    parent: Nid,
    table: Table,
}

impl Model for TableNode {
    ghost use Rattle.std.specs.Prelude.{◌≡◌, true};
    ghost use Rattle.node_values.specs.Subnodes.{ids_ascend};
    ghost use Rattle.mail_objects.specs.Forms.{Tbl};

    ghost Value = { Tbl };

    ghost view = { λ t. record { parent = t.parent.bits; table = t.table } };

    ghost invariant = { λ t. ids_ascend 0 t.table.kept ≡ true };
}

impl TableNode {
    ghost use Rattle.node_values.specs.Subnodes.{ids_ascend};
    ghost use Rattle.mapi_values.specs.Tables.{drop_row, mirror, put_row};

    /// A node with this parent and this table, whose kept subnodes ascend by id.
    pub fn new(parent: Nid, table: Table) -> TableNode
        requires { ids_ascend 0 table.kept ≡ true }
        ensures parent { result.parent ≡ parent.bits }
        ensures table { result.table ≡ table }
    {
        TableNode { parent, table }
    }

    /// The id of the parent.
    pub fn parent(&self) -> Nid
        ensures { result.bits ≡ self.now.parent }
    {
        self.parent
    }

    /// The table.
    pub fn table(&self) -> &Table
        ensures table { result.now ≡ self.now.table }
        ensures ascend { ids_ascend 0 self.now.table.kept ≡ true }
    {
        &self.table
    }

    /// The table, without its node.
    pub fn into_table(self) -> Table
        ensures table { result ≡ self.table }
        ensures ascend { ids_ascend 0 self.table.kept ≡ true }
    {
        self.table
    }

    /// The same node, whose table has the row of this id that shows an object, in place of its row of that id. The node is lost with an `Err`.
    pub fn with_row(self, alloc: Global, id: u32, props: &Props) -> Result<TableNode, AllocError>
        ensures { IfOk result (λ t. t ≡ record self { table = record self.table { rows = put_row id (mirror self.table.columns props.now) self.table.rows } }) }
    {
        let TableNode { parent, mut table } = self;
        put_row(alloc, &mut table, id, props)?;
        Ok(TableNode { parent, table })
    }

    /// The same node, whose table hasn't the row of this id. Takes no memory.
    pub fn without_row(self, id: u32) -> TableNode
        ensures { result ≡ record self { table = record self.table { rows = drop_row id self.table.rows } } }
    {
        let TableNode { parent, mut table } = self;
        let _was_there = drop_row(&mut table, id);
        TableNode { parent, table }
    }

    /// The same again.
    pub fn copy(&self, alloc: Global) -> Result<TableNode, AllocError>
        ensures { IfOk result (λ t. t ≡ self.now) }
    {
        Ok(TableNode {
            parent: self.parent,
            table: self.table.copy(alloc)?,
        })
    }
}
