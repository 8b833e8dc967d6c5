//! A message with its recipients and attachments.
ghost use Rattle.std.specs.Prelude.{◌≡◌, IfOk};

use crate::part::Part;
use crate::props::Props;
use crate::table::Table;
use pst_base::{Nid, Subs};
use std::alloc::{AllocError, Global};
use std::marker::Model;

/// A message: its node and that of its folder, its properties, the tables of its recipients and its attachments if they are there, the attachments, which are just those that the rows of their table name, in their order, and the subnodes that none of these uses. Contracts see a `Mes`.
#[derive(Debug, Drop)]
pub struct Message {
    pub nid: Nid,
    pub folder: Nid,
    pub props: Props,
    pub recipients: Option<Table>,
    pub attachments: Option<Table>,
    pub parts: Vec<Part>,
    pub kept: Subs,
}

impl Model for Message {
    ghost use Rattle.mapi_values.specs.Messages.{IsMessage, Mes};

    ghost Value = { Mes };

    ghost view = { λ m. record { nid = m.nid.bits; folder = m.folder.bits; props = m.props; recipients = m.recipients; attachments = m.attachments; parts = m.parts.items; kept = m.kept } };

    ghost invariant = { λ m. IsMessage m.attachments m.parts.items m.kept };
}

/// The same table again, if there is one.
fn copy_table(alloc: Global, table: &Option<Table>) -> Result<Option<Table>, AllocError>
    ensures { IfOk result (λ copied. copied ≡ table.now) }
{
    match table {
        Some(table) => Ok(Some(table.copy(alloc)?)),
        None => Ok(None),
    }
}

/// The same attachments again.
fn copy_parts(alloc: Global, parts: &[Part]) -> Result<Vec<Part>, AllocError>
    ensures { IfOk result (λ copied. copied.items ≡ parts.now) }
{
    let mut copied = Vec::with_capacity(alloc, parts.len())?;
    for part in parts {
        copied.push(part.copy(alloc)?)?;
    }
    Ok(copied)
}

impl Message {
    /// The same message again.
    pub fn copy(&self, alloc: Global) -> Result<Message, AllocError>
        ensures { IfOk result (λ message. message ≡ self.now) }
    {
        Ok(Message {
            nid: self.nid,
            folder: self.folder,
            props: self.props.copy(alloc)?,
            recipients: copy_table(alloc, &self.recipients)?,
            attachments: copy_table(alloc, &self.attachments)?,
            parts: copy_parts(alloc, self.parts.as_slice())?,
            kept: self.kept.copy(alloc)?,
        })
    }
}
