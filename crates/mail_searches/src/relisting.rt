//! The row of a message in the table of what a search lists.
ghost use Rattle.std.specs.Prelude.{◌≡◌, OnErr, OnOk};
ghost use Rattle.mail_searches.specs.Relisting.{by_delta};

use live_search::Delta;
use mapi_values::{Props, Table, drop_row, put_row};
use pst_base::Nid;
use std::alloc::{AllocError, Global};

/// Brings the row of a message in the table of a running search in order, by what becomes of the message in the list, whether a command put it anew, and its values. A row that comes shows the message, one that stays does so anew where the message was put, and all other rows stay. Where nothing comes and nothing is shown anew it takes no memory. An `Err` changes nothing.
pub fn relist(
    alloc: Global,
    table: &mut Table,
    delta: Delta,
    anew: bool,
    message: Nid,
    props: &Props,
) -> Result<(), AllocError>
    ensures rows { OnOk result (table.new.rows ≡ by_delta delta anew table.old.columns message.bits props.now table.old.rows) }
    ensures err { OnErr result (table.new.rows ≡ table.old.rows) }
    ensures columns { table.new.columns ≡ table.old.columns }
    ensures ends { table.new.ends ≡ table.old.ends }
    ensures kept { table.new.kept ≡ table.old.kept }
{
    match delta {
        Delta::Same => Ok(()),
        Delta::Enter => put_row(alloc, table, message.bits, props),
        Delta::Leave => {
            let _was_there = drop_row(table, message.bits);
            Ok(())
        }
        Delta::Stay => {
            if anew {
                put_row(alloc, table, message.bits, props)
            } else {
                Ok(())
            }
        }
    }
}
