//! Writing a message.
ghost use Rattle.std.specs.Prelude.{◌≡◌, ◌+◌, ◌≤◌, true, length, IfOk, OnOk};
ghost use Rattle.std.specs.List.{list_all};
ghost use Rattle.node_port.specs.Stops.{subs_size};
ghost use Rattle.property_context.specs.write_limits.Space.{message_space};
ghost use Rattle.property_context.specs.write_limits.Limits.{message_fits, option_fits, part_fits};
ghost use Rattle.mail_objects.specs.Writing.{AddsParts, AddsTable, IsPart, LaysBelow, rows_ascend};
ghost use Rattle.mail_objects.specs.Message.{ShowsMessage, is_formed, part_is_formed, table_ascends};

use crate::message::ids::{NID_ATTACHMENT_TABLE, NID_RECIPIENT_TABLE, is_table};
use crate::message::order::in_order;
use mapi_values::{Message, Part, Table};
use node_port::NodeRec;
use node_values::ids_ascend;
use property_context::write_pc;
use pst_base::{Nid, Sub, Subs};
use std::alloc::{AllocError, Global};
use table_writer::write_tc;

/// Whether the ids of the subnodes that a table keeps ascend, if there is a table.
fn table_ascends(table: &Option<Table>) -> bool
    ensures { result ≡ table_ascends table.now }
{
    match table {
        Some(table) => ids_ascend(table.kept()),
        None => true,
    }
}

/// Whether the subnodes that an attachment keeps ascend by id, and it doesn't stand where a table of the message stands.
fn part_is_formed(part: &Part) -> bool
    ensures { result ≡ part_is_formed part.now }
{
    ids_ascend(&part.kept) && !is_table(part.nid.bits)
}

/// The same of each attachment.
fn parts_are_formed(parts: &[Part]) -> bool
    ensures { result ≡ list_all part_is_formed parts.now }
{
    parts.iter().all(|part| part_is_formed(part))
}

/// Whether a message can be laid out as a node: the subnodes that it, its tables and its attachments keep ascend by id, and no attachment has the id of one of its tables.
#[tactic(auto, unfolding(crate::specs::Message::is_formed))]
pub fn is_formed(message: &Message) -> bool
    ensures { result ≡ is_formed message.now }
{
    ids_ascend(&message.kept)
        && table_ascends(&message.recipients)
        && table_ascends(&message.attachments)
        && parts_are_formed(message.parts.as_slice())
}

/// Puts the subnode of a table at the end, if there is a table.
fn push_table(
    alloc: Global,
    subs: &mut Vec<Sub>,
    bits: u32,
    table: &Option<Table>,
) -> Result<(), AllocError>
    requires fit { option_fits table.now ≡ true }
    requires ascend { table_ascends table.now ≡ true }
    ensures adds { OnOk result (AddsTable subs.old.items bits table.now subs.new.items) }
    ensures rows { rows_ascend table.now ≡ true }
{
    let Some(table) = table else {
        return Ok(());
    };
    // That its rows ascend is known of a table once a field is named.
    let _ = &table.rows;
    let (blocks, below) = write_tc(alloc, table)?;
    subs.push(Sub {
        nid: Nid { bits },
        blocks,
        subs: below,
    })?;
    Ok(())
}

/// The subnode of an attachment.
fn write_part(alloc: Global, part: &Part) -> Result<Sub, AllocError>
    requires fit { part_fits part.now ≡ true }
    requires formed { part_is_formed part.now ≡ true }
    ensures { IfOk result (IsPart part.now) }
{
    let (blocks, subs) = write_pc(alloc, &part.props, part.kept.copy(alloc)?)?;
    Ok(Sub {
        nid: part.nid,
        blocks,
        subs,
    })
}

/// Puts the subnodes of attachments at the end.
fn push_parts(alloc: Global, subs: &mut Vec<Sub>, parts: &[Part]) -> Result<(), AllocError>
    requires fit { list_all part_fits parts.now ≡ true }
    requires formed { list_all part_is_formed parts.now ≡ true }
    ensures { OnOk result (AddsParts subs.old.items parts.now subs.new.items) }
{
    for part in parts {
        subs.push(write_part(alloc, part)?)?;
    }
    Ok(())
}

/// The subnodes of a message beside those of its values: the ones that it keeps, its tables and its attachments, ascending by id.
fn write_below(alloc: Global, message: &Message) -> Result<Subs, AllocError>
    requires fit { message_fits message.now ≡ true }
    requires formed { is_formed message.now ≡ true }
    ensures { IfOk result (LaysBelow message.now) }
{
    let mut subs = message.kept.copy(alloc)?.into_vec();
    push_table(alloc, &mut subs, NID_RECIPIENT_TABLE, &message.recipients)?;
    push_table(alloc, &mut subs, NID_ATTACHMENT_TABLE, &message.attachments)?;
    push_parts(alloc, &mut subs, message.parts.as_slice())?;
    Ok(Subs::from_vec(in_order(alloc, subs)?))
}

/// The node of a message that is small enough and can be laid out. Its parent is the message's folder. It takes no more blocks than there is room for. The error: memory ran out.
pub fn write_message(alloc: Global, message: &Message) -> Result<NodeRec, AllocError>
    requires fit { message_fits message.now ≡ true }
    requires formed { is_formed message.now ≡ true }
    ensures shows { IfOk result (λ node. ShowsMessage message.now.nid node message.now) }
    ensures small { IfOk result (λ node. length node.blocks + subs_size node.subs + 1 ≤ message_space message.now) }
{
    let rest = write_below(alloc, message)?;
    let (blocks, subs) = write_pc(alloc, &message.props, rest)?;
    Ok(NodeRec {
        parent: message.folder,
        blocks,
        subs,
    })
}
