//! What a node of a store holds.
ghost use Rattle.std.specs.Prelude.{◌≡◌, IfOk};

use crate::context::Context;
use crate::mail::Mail;
use crate::table::TableNode;
use pst_base::Nid;
use std::alloc::{AllocError, Global};

/// An object of a store.
#[derive(Debug, Drop)]
pub enum Object {
    /// Properties, as those of a folder.
    Context(Context),
    /// A table, as the list of a folder's messages.
    Table(TableNode),
    /// A message.
    Message(Mail),
    /// A node with this parent and without data, as the one of updates beside a search folder.
    Bare(Nid),
}

impl Object {
    /// The same again.
    pub fn copy(&self, alloc: Global) -> Result<Object, AllocError>
        ensures { IfOk result (λ o. o ≡ self.now) }
    {
        match self {
            Object::Context(context) => Ok(Object::Context(context.copy(alloc)?)),
            Object::Table(table) => Ok(Object::Table(table.copy(alloc)?)),
            Object::Message(mail) => Ok(Object::Message(mail.copy(alloc)?)),
            Object::Bare(parent) => Ok(Object::Bare(*parent)),
        }
    }
}
