//! The matrix of a table that is written: where it stands, how its blocks are filled, and which bits say that there is a value.
use crate::objects::{columns, read_numbers, table};
use crate::values::{props, say, say_bytes, small};
use mapi_values::{Table, put_row};
use node_values::ids_ascend;
use pst_base::{Bytes, Sub};
use std::alloc::Global;
use std::fmt::Write;
use table_writer::write_tc;
use test_lines::{Trouble, Words};
use write_limits::table_fits;

/// The id of the first row, a message's. Those behind it go up by 32.
const FIRST: u32 = 0x20_0024;

/// Adds the bytes 56 and 57 of the first of some blocks, which are the bits of the first row.
fn say_bits(text: &mut String, blocks: &[Bytes]) -> Result<(), Trouble> {
    let Some(block) = blocks.first() else {
        return Err(Trouble::Place);
    };
    let len = block.len();
    write!(text, "{len} ")?;
    match block.as_slice().get(56..58) {
        Some(bits) => say_bytes(text, bits),
        None => Err(Trouble::Place),
    }
}

/// Adds the id of the only subnode, how many blocks it has, the length of the first, and the bits of the first row.
fn say_subs(text: &mut String, subs: &[Sub]) -> Result<(), Trouble> {
    match subs {
        [] => say(text, "none"),
        [sub] => {
            let nid = sub.nid.bits;
            let count = sub.blocks.len();
            write!(text, "{nid:x} {count} ")?;
            say_bits(text, sub.blocks.as_slice())
        }
        _ => Err(Trouble::Place),
    }
}

/// Adds what the subnodes are that are written of a table.
fn say_written(alloc: Global, text: &mut String, table: &Table) -> Result<(), Trouble> {
    if !table_fits(table) || !ids_ascend(table.kept()) {
        return Err(Trouble::Place);
    }
    let (_, subs) = write_tc(alloc, table)?;
    say_subs(text, subs.as_slice())
}

/// Adds to a table so many rows that show values.
fn put_rows(alloc: Global, table: &mut Table, count: u16, values: &str) -> Result<(), Trouble> {
    let props = props(alloc, values)?;
    for id in 0..count {
        put_row(alloc, table, FIRST + 32 * u32::from(id), &props)?;
    }
    Ok(())
}

/// Adds what the subnodes are that are written of a table with so many rows.
fn say_grown(
    alloc: Global,
    text: &mut String,
    table: &mut Table,
    count: u16,
    values: &str,
) -> Result<(), Trouble> {
    put_rows(alloc, table, count, values)?;
    say_written(alloc, text, table)
}

/// What the subnodes are that are written of a table of so many rows, which show values.
pub fn ask_matrix(alloc: Global, text: &mut String, words: &mut Words) -> Result<(), Trouble> {
    let count = small(words.word()?)?;
    let mut ends = [0u16; 4];
    read_numbers(words.word()?, &mut ends)?;
    let columns = columns(alloc, words.part().rest())?;
    let mut table = table(alloc, columns, ends)?;
    say_grown(alloc, text, &mut table, count, words.rest())
}
