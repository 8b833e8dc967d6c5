//! Rows that show objects.
ghost use Rattle.mail_tree.specs.Changing.{add_shown, drop_shown, put_shown};
ghost use Rattle.mail_draft.specs.Sight.{Changes, Drafts};

use crate::desk::Desk;
use crate::rows::overfills;
use crate::stop::Stop;
use command_text::{CommandRefusal, Limit};
use mail_objects::Object;
use mapi_values::Props;
use pst_base::Nid;

/// Makes the row of an object in a table show it.
pub fn put_shown<D: Desk>(desk: &mut D, table: Nid, id: Nid, props: &Props) -> Result<(), Stop>
    ensures drafts { Drafts (D.view desk.old) (D.view desk.new) result }
    ensures answer { Changes (D.view desk.old) (D.view desk.new) (λ T. put_shown T table.bits id.bits props.now) result }
{
    let node = desk.take_table(table)?;
    let shown = node.with_row(desk.alloc(), id.bits, props)?;
    desk.put(table, Some(Object::Table(shown)))
}

/// Adds a row that shows an object to a table. Refused where the table would then have more than 100,000 rows, and more than before.
pub fn add_shown<D: Desk>(desk: &mut D, table: Nid, id: Nid, props: &Props) -> Result<(), Stop>
    ensures drafts { Drafts (D.view desk.old) (D.view desk.new) result }
    ensures answer { Changes (D.view desk.old) (D.view desk.new) (λ T. add_shown T table.bits id.bits props.now) result }
{
    let node = desk.take_table(table)?;
    let old_len = node.table().rows().len();
    let shown = node.with_row(desk.alloc(), id.bits, props)?;
    if overfills(old_len, shown.table()) {
        return Err(Stop::Refused(CommandRefusal::Limit(Limit::Rows)));
    }
    desk.put(table, Some(Object::Table(shown)))
}

/// Takes a row out of a table.
pub fn drop_shown<D: Desk>(desk: &mut D, table: Nid, id: Nid) -> Result<(), Stop>
    ensures drafts { Drafts (D.view desk.old) (D.view desk.new) result }
    ensures answer { Changes (D.view desk.old) (D.view desk.new) (λ T. drop_shown T table.bits id.bits) result }
{
    let node = desk.take_table(table)?;
    desk.put(table, Some(Object::Table(node.without_row(id.bits))))
}
