//! Property contexts, table contexts and messages that words lay out.
use crate::nodes::node;
use crate::values::{part, say, say_number, short};
use mail_objects::{MessageFault, read_message};
use mapi_values::{Message, Props, Table};
use node_port::NodeRec;
use property_context::read_pc;
use pst_base::{MemOr, Nid};
use std::alloc::Global;
use std::fmt::Write;
use table_context::read_tc;
use test_lines::{Trouble, Words};

/// Adds the lengths of properties, which words name by their ids.
fn say_lengths(text: &mut String, props: &Props, words: &str) -> Result<(), Trouble> {
    for word in words.split(' ') {
        part(text)?;
        match props.get(short(word)?) {
            Some(value) => say_number(text, value.len())?,
            None => say(text, "none")?,
        }
    }
    Ok(())
}

/// Adds the lengths of properties of a node, or why it is no property context.
fn say_values(
    alloc: Global,
    text: &mut String,
    node: &NodeRec,
    words: &mut Words,
) -> Result<(), Trouble> {
    match read_pc(alloc, node.blocks.as_slice(), &node.subs) {
        Ok((props, _rest)) => say_lengths(text, &props, words.rest()),
        Err(MemOr::Refused(fault)) => Ok(write!(text, "{fault:?}")?),
        Err(MemOr::Memory) => Err(Trouble::Memory),
    }
}

/// Adds the lengths of the cells of a row.
fn say_row(text: &mut String, table: &Table, words: &mut Words) -> Result<(), Trouble> {
    match table.row(words.id()?) {
        Some((_, cells)) => say_lengths(text, cells, words.rest()),
        None => Err(Trouble::Name),
    }
}

/// Adds the lengths of the cells of a row of a node, or why it is no table.
fn say_cells(
    alloc: Global,
    text: &mut String,
    node: &NodeRec,
    words: &mut Words,
) -> Result<(), Trouble> {
    match read_tc(alloc, node.blocks.as_slice(), &node.subs) {
        Ok(table) => say_row(text, &table, words),
        Err(MemOr::Refused(fault)) => Ok(write!(text, "{fault:?}")?),
        Err(MemOr::Memory) => Err(Trouble::Memory),
    }
}

/// Adds that a node was read as a message, or why it is none.
fn say_read(text: &mut String, read: &Result<Message, MemOr<MessageFault>>) -> Result<(), Trouble> {
    match read {
        Ok(_) => say(text, "read"),
        Err(MemOr::Refused(fault)) => Ok(write!(text, "{fault:?}")?),
        Err(MemOr::Memory) => Err(Trouble::Memory),
    }
}

/// Adds that a node with an id is read as a message, or why it is none.
fn say_message(
    alloc: Global,
    text: &mut String,
    node: &NodeRec,
    words: &mut Words,
) -> Result<(), Trouble> {
    let nid = Nid { bits: words.id()? };
    let read = read_message(alloc, nid, node);
    say_read(text, &read)
}

/// What the first part of a row asks of the node behind it.
pub fn answer(
    alloc: Global,
    text: &mut String,
    kind: &str,
    words: &mut Words,
) -> Result<(), Trouble> {
    let mut asked = words.part();
    let node = node(alloc, words)?;
    match kind {
        "values" => say_values(alloc, text, &node, &mut asked),
        "cells" => say_cells(alloc, text, &node, &mut asked),
        _ => say_message(alloc, text, &node, &mut asked),
    }
}
