//! What a node is, or why it isn't.
ghost use Rattle.std.specs.Prelude.{◌≡◌};
ghost use Rattle.mail_objects.specs.Answers.{Reads, context_fault, table_fault};
ghost use Rattle.mail_objects.specs.Objects.{ShowsContext, ShowsMail, ShowsTable};
ghost use Rattle.tree_look.specs.Faults.{HoldNames};
ghost use Rattle.tree_look.specs.Forms.{IsNoContext, IsNoMail, IsNoTable};

use crate::stops::{LookRefusal, LookStop};
use mail_objects::{Context, Mail, MessageFault, TableNode, is_formed, read_message};
use named_props::read_names;
use node_port::NodeRec;
use node_values::ids_ascend;
use property_context::{PcFault, read_pc};
use pst_base::{MemOr, Nid};
use std::alloc::Global;
use table_context::{TcFault, read_tc};

/// The fault of a node, for one of a property context.
fn context_fault(fault: PcFault) -> MessageFault
    ensures { result ≡ context_fault fault }
{
    match fault {
        PcFault::Heap => MessageFault::Heap,
        PcFault::Bth => MessageFault::Bth,
        PcFault::Pc => MessageFault::Pc,
    }
}

/// The fault of a node, for one of a table.
fn table_fault(fault: TcFault) -> MessageFault
    ensures { result ≡ table_fault fault }
{
    match fault {
        TcFault::Heap => MessageFault::Heap,
        TcFault::Bth => MessageFault::Bth,
        TcFault::Tc => MessageFault::Tc,
    }
}

/// The properties that a node holds, or why it holds none.
pub(crate) fn context_of(alloc: Global, node: &NodeRec) -> Result<Context, MemOr<MessageFault>>
    ensures { Reads (ShowsContext node.now) (IsNoContext node.now) result }
{
    match read_pc(alloc, node.blocks.as_slice(), &node.subs) {
        Ok((props, kept)) => {
            if ids_ascend(&kept) {
                Ok(Context::new(node.parent, props, kept))
            } else {
                Err(MemOr::Refused(MessageFault::Pc))
            }
        }
        Err(MemOr::Memory) => Err(MemOr::Memory),
        Err(MemOr::Refused(fault)) => Err(MemOr::Refused(context_fault(fault))),
    }
}

/// Looks whether the values of the node of names hold names.
pub(crate) fn check_names(alloc: Global, context: &Context) -> Result<(), LookStop>
    ensures { HoldNames context.now.props result }
{
    match read_names(alloc, context.props()) {
        Ok(_) => Ok(()),
        Err(MemOr::Refused(_)) => Err(LookStop::Refused(LookRefusal::Names)),
        Err(MemOr::Memory) => Err(LookStop::Memory),
    }
}

/// The table that a node is, or why it is none: its bytes are no table, or the subnodes that it keeps don't ascend by id. `Memory` comes where there was none.
pub fn table_of(alloc: Global, node: &NodeRec) -> Result<TableNode, MemOr<MessageFault>>
    ensures { Reads (ShowsTable node.now) (IsNoTable node.now) result }
{
    match read_tc(alloc, node.blocks.as_slice(), &node.subs) {
        Ok(table) => {
            if ids_ascend(table.kept()) {
                Ok(TableNode::new(node.parent, table))
            } else {
                Err(MemOr::Refused(MessageFault::Tc))
            }
        }
        Err(MemOr::Memory) => Err(MemOr::Memory),
        Err(MemOr::Refused(fault)) => Err(MemOr::Refused(table_fault(fault))),
    }
}

/// The message that the node with this id is, or why it is none.
pub(crate) fn mail_of(alloc: Global, nid: Nid, node: &NodeRec) -> Result<Mail, MemOr<MessageFault>>
    ensures { Reads (ShowsMail nid.bits node.now) (IsNoMail nid.bits node.now) result }
{
    match read_message(alloc, nid, node) {
        Ok(message) => {
            if is_formed(&message) {
                Ok(Mail::new(message))
            } else {
                Err(MemOr::Refused(MessageFault::Pc))
            }
        }
        Err(MemOr::Memory) => Err(MemOr::Memory),
        Err(MemOr::Refused(fault)) => Err(MemOr::Refused(fault)),
    }
}
