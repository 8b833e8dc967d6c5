//! Reading objects from nodes.
ghost use Rattle.std.specs.Prelude.{MatchOption, IfOk};
ghost use Rattle.mapi_values.specs.Messages.{Mes};
ghost use Rattle.mail_objects.specs.Forms.{Ctx, Tbl};
ghost use Rattle.pst_base.specs.declared.ids.Nid.{Nid};
ghost use Rattle.mail_objects.specs.Objects.{ShowsContext, ShowsMail, ShowsTable};

use crate::context::Context;
use crate::mail::Mail;
use crate::message::{is_formed, read_message};
use crate::table::TableNode;
use node_port::NodeRec;
use node_values::ids_ascend;
use property_context::read_pc;
use pst_base::{MemOr, Nid};
use std::alloc::{AllocError, Global};
use table_writer::table_context::read_tc;

/// The properties that a node holds, or `None` exactly where it is no property context whose other subnodes ascend by id. The error: memory ran out.
pub fn read_context(alloc: Global, node: &NodeRec) -> Result<Option<Context>, AllocError>
    ensures { IfOk result (λ found. MatchOption found ((c : Ctx) → ShowsContext node.now c → ⊥) (ShowsContext node.now)) }
{
    match read_pc(alloc, node.blocks.as_slice(), &node.subs) {
        Ok((props, kept)) => {
            if ids_ascend(&kept) {
                Ok(Some(Context::new(node.parent, props, kept)))
            } else {
                Ok(None)
            }
        }
        Err(MemOr::Memory) => Err(AllocError),
        Err(MemOr::Refused(_)) => Ok(None),
    }
}

/// The table that a node is, or `None` exactly where it is none whose other subnodes ascend by id. The error: memory ran out.
pub fn read_table(alloc: Global, node: &NodeRec) -> Result<Option<TableNode>, AllocError>
    ensures { IfOk result (λ found. MatchOption found ((t : Tbl) → ShowsTable node.now t → ⊥) (ShowsTable node.now)) }
{
    match read_tc(alloc, node.blocks.as_slice(), &node.subs) {
        Ok(table) => {
            if ids_ascend(table.kept()) {
                Ok(Some(TableNode::new(node.parent, table)))
            } else {
                Ok(None)
            }
        },
        Err(MemOr::Memory) => Err(AllocError),
        Err(MemOr::Refused(_)) => Ok(None),
    }
}

/// The message that the node with this id is, or `None` exactly where it is none that can be laid out again. The error: memory ran out.
pub fn read_mail(alloc: Global, nid: Nid, node: &NodeRec) -> Result<Option<Mail>, AllocError>
    ensures { IfOk result (λ found. MatchOption found ((m : Mes) → ShowsMail nid.bits node.now m → ⊥) (ShowsMail nid.bits node.now)) }
{
    match read_message(alloc, nid, node) {
        Ok(message) => {
            if is_formed(&message) {
                Ok(Some(Mail::new(message)))
            } else {
                Ok(None)
            }
        }
        Err(MemOr::Memory) => Err(AllocError),
        Err(MemOr::Refused(_)) => Ok(None),
    }
}
