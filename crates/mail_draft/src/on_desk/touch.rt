//! Objects that a line touches and leaves as they are: they are written with its changes.
ghost use Rattle.mail_tree.specs.Settling.{above_as_is, context_as_is, table_as_is, touched};
ghost use Rattle.mail_draft.specs.Sight.{Changes, Drafts};

use crate::beside::{contents, hierarchy};
use crate::desk::Desk;
use crate::stop::Stop;
use mail_objects::Object;
use mail_tree::ROOT_FOLDER;
use pst_base::Nid;

/// Puts the properties at an id as they are.
fn context_as_is<D: Desk>(desk: &mut D, nid: Nid) -> Result<(), Stop>
    ensures drafts { Drafts (D.view desk.old) (D.view desk.new) result }
    ensures answer { Changes (D.view desk.old) (D.view desk.new) (λ T. context_as_is T nid.bits) result }
{
    let context = desk.context(nid)?;
    desk.put(nid, Some(Object::Context(context)))
}

/// Puts the table at an id as it is.
pub(crate) fn table_as_is<D: Desk>(desk: &mut D, nid: Nid) -> Result<(), Stop>
    ensures drafts { Drafts (D.view desk.old) (D.view desk.new) result }
    ensures answer { Changes (D.view desk.old) (D.view desk.new) (λ T. table_as_is T nid.bits) result }
{
    let table = desk.table(nid)?;
    desk.put(nid, Some(Object::Table(table)))
}

/// Puts the table that lists a folder as it is, for the root its own.
fn above_as_is<D: Desk>(desk: &mut D, folder: Nid) -> Result<(), Stop>
    ensures drafts { Drafts (D.view desk.old) (D.view desk.new) result }
    ensures answer { Changes (D.view desk.old) (D.view desk.new) (λ T. above_as_is T folder.bits) result }
{
    if folder.bits == ROOT_FOLDER {
        return table_as_is(desk, hierarchy(folder));
    }
    let context = desk.context(folder)?;
    table_as_is(desk, hierarchy(context.parent()))
}

/// Puts a folder as it is from which something is read: its values, its table of messages, and the table that lists it.
pub fn touched<D: Desk>(desk: &mut D, folder: Nid) -> Result<(), Stop>
    ensures drafts { Drafts (D.view desk.old) (D.view desk.new) result }
    ensures answer { Changes (D.view desk.old) (D.view desk.new) (λ T. touched T folder.bits) result }
{
    context_as_is(desk, folder)?;
    table_as_is(desk, contents(folder))?;
    above_as_is(desk, folder)
}
