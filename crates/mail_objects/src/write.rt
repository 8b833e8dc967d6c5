//! Writing objects as nodes.
ghost use Rattle.std.specs.Prelude.{◌≡◌, ◌+◌, ◌≤◌, ℕ, true, IfOk};
ghost use Rattle.property_context.specs.write_limits.Space.{kept_space, props_space, table_space};
ghost use Rattle.property_context.specs.write_limits.Limits.{props_fit, table_fits};
ghost use Rattle.mail_objects.specs.Objects.{ShowsBare, ShowsContext, ShowsObject, ShowsTable, node_size, object_fits, object_space, stands_at};

use crate::context::Context;
use crate::message::write_message;
use crate::object::Object;
use crate::table::TableNode;
use node_port::NodeRec;
use property_context::write_limits::{message_fits, props_fit, table_fits};
use property_context::write_pc;
use pst_base::{Blocks, Nid, Subs};
use std::alloc::{AllocError, Global};
use table_writer::write_tc;

/// Whether an object is small enough to be written: its tables and values keep to the limits on what a command writes.
pub fn object_fits(object: &Object) -> bool
    ensures { result ≡ object_fits object.now }
{
    match object {
        Object::Context(context) => props_fit(context.props(), context.kept()),
        Object::Table(table) => table_fits(table.table()),
        Object::Message(mail) => message_fits(mail.message()),
        Object::Bare(_) => true,
    }
}

/// The node of properties.
fn write_context(alloc: Global, context: &Context) -> Result<NodeRec, AllocError>
    requires { props_fit context.now.props context.now.kept ≡ true }
    ensures shows { IfOk result (λ node. ShowsContext node context.now) }
    ensures small { IfOk result (λ node. node_size node ≤ props_space context.now.props + kept_space context.now.kept) }
{
    let (blocks, subs) = write_pc(alloc, context.props(), context.kept().copy(alloc)?)?;
    Ok(NodeRec {
        parent: context.parent(),
        blocks,
        subs,
    })
}

/// The node of a table.
fn write_table(alloc: Global, table: &TableNode) -> Result<NodeRec, AllocError>
    requires { table_fits table.now.table ≡ true }
    ensures shows { IfOk result (λ node. ShowsTable node table.now) }
    ensures small { IfOk result (λ node. node_size node ≤ table_space table.now.table) }
{
    let (blocks, subs) = write_tc(alloc, table.table())?;
    Ok(NodeRec {
        parent: table.parent(),
        blocks,
        subs,
    })
}

/// The node without data that has this parent. Takes no memory.
fn write_bare(alloc: Global, parent: Nid) -> NodeRec
    ensures shows { ShowsBare result parent }
    ensures small { node_size result ≤ 1 }
{
    NodeRec {
        parent,
        blocks: Blocks::new(alloc),
        subs: Subs::new(alloc),
    }
}

/// The node of an object that is small enough. It takes no more blocks than are asked for it. The error: memory ran out.
pub fn write_object(alloc: Global, object: &Object) -> Result<NodeRec, AllocError>
    requires { object_fits object.now ≡ true }
    ensures shows { IfOk result (λ node. (nid : ℕ) → stands_at nid object.now ≡ true → ShowsObject nid node object.now) }
    ensures small { IfOk result (λ node. node_size node ≤ object_space object.now) }
{
    match object {
        Object::Context(context) => write_context(alloc, context),
        Object::Table(table) => write_table(alloc, table),
        Object::Message(mail) => write_message(alloc, mail.message()),
        Object::Bare(parent) => Ok(write_bare(alloc, *parent)),
    }
}
