//! Reading a message.
ghost use Rattle.std.specs.Prelude.{◌≡◌, false, map, option_copied};
ghost use Rattle.std.specs.Option.{option_map};
ghost use Rattle.mapi_values.specs.Messages.{row_ids};
ghost use Rattle.node_values.specs.Subnodes.{contents, subnode, without};
ghost use Rattle.property_context.specs.Context.{IsPropertyContext};
ghost use Rattle.mail_objects.specs.Answers.{Reads, ShowsBelow, context_fault, table_fault};
ghost use Rattle.mail_objects.specs.Message.{ShowsPart, ShowsParts, ShowsTable};
ghost use Rattle.mail_objects.specs.Reading.{FirstLacks, LacksBelow, LacksContext, LacksPart, LacksTable, ReadsMessage};
ghost use Rattle.mail_objects.specs.Subnodes.{is_table};

use crate::message::fault::MessageFault;
use crate::message::ids::{NID_ATTACHMENT_TABLE, NID_RECIPIENT_TABLE, is_table};
use crate::message::kept::without_own;
use mapi_values::{Message, Part, Props, Table};
use node_port::NodeRec;
use node_values::Finder;
use property_context::{PcFault, read_pc};
use pst_base::{Bytes, MemOr, Nid, Sub, Subs};
use std::alloc::Global;
use table_writer::table_context::{TcFault, read_tc};

/// The fault of a message, for one of a property context.
fn context_fault(fault: PcFault) -> MessageFault
    ensures { result ≡ context_fault fault }
{
    match fault {
        PcFault::Heap => MessageFault::Heap,
        PcFault::Bth => MessageFault::Bth,
        PcFault::Pc => MessageFault::Pc,
    }
}

/// The fault of a message, for one of a table.
fn table_fault(fault: TcFault) -> MessageFault
    ensures { result ≡ table_fault fault }
{
    match fault {
        TcFault::Heap => MessageFault::Heap,
        TcFault::Bth => MessageFault::Bth,
        TcFault::Tc => MessageFault::Tc,
    }
}

/// The properties in blocks and subnodes, and the subnodes that no property names.
fn read_context(
    alloc: Global,
    blocks: &[Bytes],
    subs: &Subs,
) -> Result<(Props, Subs), MemOr<MessageFault>>
    ensures { Reads (λ found. IsPropertyContext blocks.now subs.now found.0 found.1) (LacksContext blocks.now subs.now) result }
{
    match read_pc(alloc, blocks, subs) {
        Ok(found) => Ok(found),
        Err(MemOr::Memory) => Err(MemOr::Memory),
        Err(MemOr::Refused(fault)) => Err(MemOr::Refused(context_fault(fault))),
    }
}

/// The table in the subnode with this id, if that is there.
fn read_table(alloc: Global, finder: &Finder, id: u32) -> Result<Option<Table>, MemOr<MessageFault>>
    ensures { Reads (ShowsTable (subnode finder.now id)) (LacksTable (subnode finder.now id)) result }
{
    let Some(sub) = finder.find(id) else {
        return Ok(None);
    };
    match read_tc(alloc, sub.blocks.as_slice(), &sub.subs) {
        Ok(table) => Ok(Some(table)),
        Err(MemOr::Memory) => Err(MemOr::Memory),
        Err(MemOr::Refused(fault)) => Err(MemOr::Refused(table_fault(fault))),
    }
}

/// The subnode of the attachment with this id, which is none of the tables.
fn part_sub<'a>(finder: &Finder<'a>, id: u32) -> Option<&'a Sub>
    ensures { option_map contents (option_copied result) ≡ subnode (without is_table false finder.now) id }
{
    if is_table(id) {
        return None;
    }
    finder.find(id)
}

/// The attachment with this id.
fn read_part(alloc: Global, finder: &Finder, id: u32) -> Result<Part, MemOr<MessageFault>>
    ensures { Reads (ShowsPart (subnode (without is_table false finder.now) id) id) (LacksPart (subnode (without is_table false finder.now) id)) result }
{
    let Some(sub) = part_sub(finder, id) else {
        return Err(MemOr::Refused(MessageFault::Attach));
    };
    let (props, kept) = read_context(alloc, sub.blocks.as_slice(), &sub.subs)?;
    Ok(Part {
        nid: Nid { bits: id },
        props,
        kept,
    })
}

/// The attachments that the rows of their table name, or the fault of the first that has one.
fn read_parts(
    alloc: Global,
    finder: &Finder,
    rows: &[(u32, Props)],
) -> Result<Vec<Part>, MemOr<MessageFault>>
    ensures { Reads (λ parts. ShowsParts (without is_table false finder.now) (map (λ r. r.0) rows.now) parts.items) (FirstLacks (without is_table false finder.now) (map (λ r. r.0) rows.now)) result }
{
    let mut parts = Vec::with_capacity(alloc, rows.len())?;
    for row in rows {
        parts.push(read_part(alloc, finder, row.0)?)?;
    }
    Ok(parts)
}

/// The attachments that the table of attachments names, if there is one.
fn read_named(
    alloc: Global,
    finder: &Finder,
    attachments: &Option<Table>,
) -> Result<Vec<Part>, MemOr<MessageFault>>
    ensures { Reads (λ parts. ShowsParts (without is_table false finder.now) (row_ids attachments.now) parts.items) (FirstLacks (without is_table false finder.now) (row_ids attachments.now)) result }
{
    match attachments {
        Some(table) => read_parts(alloc, finder, table.rows()),
        None => Ok(Vec::new(alloc)),
    }
}

/// The tables of recipients and of attachments, and the attachments, among the subnodes that no value of the message uses. The fault is that of the first of these that has one.
fn read_below(
    alloc: Global,
    rest: &Subs,
) -> Result<(Option<Table>, Option<Table>, Vec<Part>), MemOr<MessageFault>>
    ensures { Reads (λ below. ShowsBelow rest.now below.0 below.1 below.2.items) (LacksBelow rest.now) result }
{
    let finder = Finder::new(alloc, rest)?;
    let recipients = read_table(alloc, &finder, NID_RECIPIENT_TABLE)?;
    let attachments = read_table(alloc, &finder, NID_ATTACHMENT_TABLE)?;
    let parts = read_named(alloc, &finder, &attachments)?;
    Ok((recipients, attachments, parts))
}

/// The message that the node with this id is. The folder is the node's parent. A refusal comes exactly where the node is no message, and names what is wrong with the first part that is at fault: the message's own values, the table of recipients, the table of attachments, then each attachment in the order of the rows.
pub fn read_message(alloc: Global, nid: Nid, node: &NodeRec) -> Result<Message, MemOr<MessageFault>>
    ensures { ReadsMessage nid.bits node.now result }
{
    let (props, rest) = read_context(alloc, node.blocks.as_slice(), &node.subs)?;
    let (recipients, attachments, parts) = read_below(alloc, &rest)?;
    let kept = without_own(alloc, rest, parts.as_slice())?;
    Ok(Message {
        nid,
        folder: node.parent,
        props,
        recipients,
        attachments,
        parts,
        kept,
    })
}
