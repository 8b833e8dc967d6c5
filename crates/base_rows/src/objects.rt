//! Values in their order, the columns of tables, what rows show, and sizes.
use crate::values::{props, say_props, say_whether, small, tag};
use mapi_values::{Column, Message, Props, Table, is_layout, mirror, size};
use pst_base::{Nid, Subs};
use std::alloc::Global;
use std::fmt::Write;
use test_lines::{Trouble, Words};

/// Values in their order.
pub fn ask_props(alloc: Global, text: &mut String, words: &mut Words) -> Result<(), Trouble> {
    let props = props(alloc, words.rest())?;
    say_props(text, &props)
}

/// Reads so many numbers as there are places from a word, in which commas part them.
pub fn read_numbers(word: &str, places: &mut [u16]) -> Result<(), Trouble> {
    let mut numbers = word.split(',');
    for place in places.iter_mut() {
        // No word is no number either.
        *place = small(numbers.next().unwrap_or(""))?;
    }
    match numbers.next() {
        Some(_) => Err(Trouble::Spelling),
        None => Ok(()),
    }
}

/// A number of 8 bits.
fn byte(number: u16) -> Result<u8, Trouble> {
    u8::try_from(number).ok().ok_or(Trouble::Spelling)
}

/// The column of a word `TAG:AT,WIDTH,BIT`.
fn column(word: &str) -> Result<Column, Trouble> {
    let Some((digits, place)) = word.split_once(':') else {
        return Err(Trouble::Spelling);
    };
    let mut numbers = [0u16; 3];
    read_numbers(place, &mut numbers)?;
    let [at, width, bit] = numbers;
    Ok(Column {
        tag: tag(digits)?,
        at,
        width: byte(width)?,
        bit: byte(bit)?,
    })
}

pub fn columns(alloc: Global, words: &str) -> Result<Vec<Column>, Trouble> {
    let mut columns = Vec::new(alloc);
    for word in words.split(' ') {
        let column = column(word)?;
        columns.push(column)?;
    }
    Ok(columns)
}

/// Whether columns are a layout with four ends.
pub fn ask_layout(alloc: Global, text: &mut String, words: &mut Words) -> Result<(), Trouble> {
    let mut ends = [0u16; 4];
    read_numbers(words.word()?, &mut ends)?;
    let columns = columns(alloc, words.rest())?;
    say_whether(text, is_layout(columns.as_slice(), &ends))
}

/// Adds the cells that a row shows of values.
fn say_cells(
    alloc: Global,
    text: &mut String,
    columns: &[Column],
    values: &str,
) -> Result<(), Trouble> {
    let props = props(alloc, values)?;
    let cells = mirror(alloc, columns, &props)?;
    say_props(text, &cells)
}

/// The cells that a row shows of values.
pub fn ask_mirror(alloc: Global, text: &mut String, words: &mut Words) -> Result<(), Trouble> {
    let columns = columns(alloc, words.part().rest())?;
    say_cells(alloc, text, columns.as_slice(), words.rest())
}

/// The table of these columns, without rows.
pub fn table(alloc: Global, columns: Vec<Column>, ends: [u16; 4]) -> Result<Table, Trouble> {
    if !is_layout(columns.as_slice(), &ends) {
        return Err(Trouble::Spelling);
    }
    Ok(Table::new(alloc, columns, ends))
}

/// A message with these values and these recipients, without attachments.
pub fn message(alloc: Global, props: Props, recipients: Option<Table>) -> Message {
    Message {
        nid: Nid { bits: 0x20_0024 },
        folder: Nid { bits: 0x8082 },
        props,
        recipients,
        attachments: None,
        parts: Vec::new(alloc),
        kept: Subs::new(alloc),
    }
}

/// The size that a message of values tells of itself.
fn size_of(alloc: Global, props: Props) -> u32 {
    size(&message(alloc, props, None))
}

/// The size that a message of values tells of itself.
pub fn ask_size(alloc: Global, text: &mut String, words: &mut Words) -> Result<(), Trouble> {
    let props = props(alloc, words.rest())?;
    let size = size_of(alloc, props);
    Ok(write!(text, "{size}")?)
}
