//! The ids of a table's rows.
ghost use Rattle.std.specs.Prelude.{◌≡◌, IfOk, map};
ghost use Rattle.mail_searches.specs.Searches.{row_ids};
ghost use Rattle.search_obj.specs.Scope.{is_among};
ghost use Rattle.list_check.specs.Rows.{row_id};
ghost use Rattle.list_check.specs.Watching.{are_known};

use mail_tree::Flags;
use mapi_values::{Keyed, Props, Table, find_keyed};
use pst_base::Nid;
use std::alloc::{AllocError, Global};
use std::marker::Model;

/// The id of a row.
#[derive(Clone, Copy, Debug, Drop)]
struct RowId {
    bits: u32,
}

impl Keyed for RowId {
    ghost key_of = { λ r. r.bits };

    fn key(&self) -> u32 {
        self.bits
    }
}

/// The ids of the rows of a table, 4 bytes each. Contracts see the list, which ascends.
#[derive(Debug, Drop)]
pub(crate) struct RowIds {
    ids: Vec<RowId>,
}

impl Model for RowIds {
    ghost use Rattle.std.specs.Prelude.{◌≡◌, ℕ, List, map, true};
    ghost use Rattle.mapi_values.specs.Keyed.{keys_ascend};

    ghost Value = { List ℕ };

    ghost view = { λ r. map (λ i. i.bits) r.ids.items };

    ghost invariant = { λ r. keys_ascend (λ i. i.bits) 0 r.ids.items ≡ true };
}

/// The ids of rows.
fn ids_of(alloc: Global, rows: &[(u32, Props)]) -> Result<Vec<RowId>, AllocError>
    ensures { IfOk result (λ ids. ids.items ≡ map row_id rows.now) }
{
    rows.iter().map(|row| RowId { bits: row.0 }).collect(alloc)
}

impl RowIds {
    /// Those of a table.
    pub(crate) fn of(alloc: Global, table: &Table) -> Result<RowIds, AllocError>
        ensures { IfOk result (λ r. r ≡ row_ids table.now.rows) }
    {
        let ids = ids_of(alloc, table.rows())?;
        Ok(RowIds { ids })
    }

    /// Whether something is known of the message at each id. Takes no memory.
    pub(crate) fn are_known(&self, flags: &Flags) -> bool
        ensures { result ≡ are_known flags.now self.now }
    {
        for id in &self.ids {
            if flags.get(id.bits).is_none() {
                return false;
            }
        }
        true
    }

    /// Whether there is a row with this id. Takes no memory.
    pub(crate) fn contains(&self, id: Nid) -> bool
        ensures { result ≡ is_among self.now id.bits }
    {
        find_keyed(self.ids.as_slice(), id.bits).is_some()
    }
}
