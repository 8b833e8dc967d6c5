//! Writes a property context with many values or a table with many rows, or reads it, again and again, or only copies its values, so that the rates can be compared.
//!
//! The words are the work, `write`, `read` or `copy`, of properties, or `write-rows`, `read-rows` or `copy-rows`, how many values or rows there are, and how often it is done; without them `write`, 1000 and once. `bench/contexts.sh` times it.

use crate::numbers::number_or;
use mapi_values::{Column, Props, Table, Tag, Value, fits, is_layout, put_row};
use node_values::ids_ascend;
use property_context::{read_pc, write_pc};
use pst_base::{Blocks, Bytes, Subs};
use std::alloc::{AllocError, Global};
use table_context::read_tc;
use table_writer::write_tc;
use write_limits::{props_fit, table_fits};

/// The kind of text.
const TEXT: u16 = 0x001F;

/// What is done again and again.
#[derive(Clone, Copy)]
enum Work {
    Write,
    Read,
    Copy,
}

/// What it is done with.
#[derive(Clone, Copy)]
enum Subject {
    Properties,
    Rows,
}

/// So many equal bytes.
fn equal(alloc: Global, len: usize, byte: u8) -> Result<Bytes, AllocError> {
    let mut bytes = Vec::new(alloc);
    bytes.resize(len, byte)?;
    Ok(Bytes::from_vec(bytes))
}

/// Puts a text of so many equal bytes, if it may be so long.
fn put_text(
    alloc: Global,
    props: &mut Props,
    id: u16,
    len: usize,
    byte: u8,
) -> Result<(), AllocError> {
    let bytes = equal(alloc, len, byte)?;
    if fits(TEXT, bytes.len()) {
        props.put(Value::new(Tag { id, kind: TEXT }, bytes))?;
    }
    Ok(())
}

/// Properties with texts of 0 to 126 bytes in turn.
fn make_props(alloc: Global, count: u16) -> Result<Props, AllocError> {
    let mut props = Props::new(alloc);
    for id in 0..count {
        let len = usize::from(id % 64) * 2;
        put_text(alloc, &mut props, id, len, (id & 0xff) as u8)?;
    }
    Ok(props)
}

/// What is written of the properties, or nothing where they may not be written.
fn written(alloc: Global, props: &Props) -> Result<(Blocks, Subs), AllocError> {
    let rest = Subs::new(alloc);
    if props_fit(props, &rest) && ids_ascend(&rest) {
        write_pc(alloc, props, rest)
    } else {
        Ok((Blocks::new(alloc), rest))
    }
}

/// How many values are read.
fn read_count(alloc: Global, made: &(Blocks, Subs)) -> usize {
    match read_pc(alloc, made.0.as_slice(), &made.1) {
        Ok((props, _)) => props.values().len(),
        Err(_) => 0,
    }
}

/// The columns of a table of names: id, kind, place and bit.
const NAMES: [(u16, u16, u16, u8); 3] = [
    (0x3001, TEXT, 8, 2),
    (0x67F2, 0x0003, 0, 0),
    (0x67F3, 0x0003, 4, 1),
];

/// The columns of a table of names.
fn columns(alloc: Global) -> Result<Vec<Column>, AllocError> {
    let mut columns = Vec::new(alloc);
    for (id, kind, at, bit) in NAMES {
        let tag = Tag { id, kind };
        columns.push(Column {
            tag,
            at,
            width: 4,
            bit,
        })?;
    }
    Ok(columns)
}

/// Puts a row with a name of 2 to 64 bytes.
fn put_name(alloc: Global, table: &mut Table, id: u32) -> Result<(), AllocError> {
    let len = (id % 32 + 1) as usize * 2;
    let mut props = Props::new(alloc);
    put_text(alloc, &mut props, 0x3001, len, (id & 0xff) as u8)?;
    put_row(alloc, table, id, &props)
}

/// Puts so many rows.
fn put_names(alloc: Global, table: &mut Table, rows: u32) -> Result<(), AllocError> {
    for id in 0..rows {
        put_name(alloc, table, id)?;
    }
    Ok(())
}

/// A table without rows, or none where the columns have no layout.
fn make_table(alloc: Global) -> Result<Option<Table>, AllocError> {
    let columns = columns(alloc)?;
    if is_layout(columns.as_slice(), &[12, 12, 12, 13]) {
        Ok(Some(Table::new(alloc, columns, [12, 12, 12, 13])))
    } else {
        Ok(None)
    }
}

/// What is written of a table, or nothing where it may not be written.
fn written_table(alloc: Global, table: &Table) -> Result<(Blocks, Subs), AllocError> {
    if table_fits(table) && ids_ascend(table.kept()) {
        write_tc(alloc, table)
    } else {
        Ok((Blocks::new(alloc), Subs::new(alloc)))
    }
}

/// How many rows are read.
fn read_rows(alloc: Global, made: &(Blocks, Subs)) -> usize {
    match read_tc(alloc, made.0.as_slice(), &made.1) {
        Ok(table) => table.rows().len(),
        Err(_) => 0,
    }
}

/// Does the work with properties so many times, and counts the blocks that were written, or the values that were read or copied.
fn with_properties(
    alloc: Global,
    work: Work,
    values: u16,
    count: u32,
) -> Result<usize, AllocError> {
    let props = make_props(alloc, values)?;
    over_properties(alloc, work, &props, count)
}

/// Does the work with some properties so many times.
fn over_properties(
    alloc: Global,
    work: Work,
    props: &Props,
    count: u32,
) -> Result<usize, AllocError> {
    let made = written(alloc, props)?;
    let mut sum: usize = 0;
    for _ in 0..count {
        sum = sum.wrapping_add(properties_once(alloc, work, props, &made)?);
    }
    Ok(sum)
}

/// Does the work with some properties, which were written, once.
fn properties_once(
    alloc: Global,
    work: Work,
    props: &Props,
    made: &(Blocks, Subs),
) -> Result<usize, AllocError> {
    match work {
        Work::Write => Ok(written(alloc, props)?.0.len()),
        Work::Read => Ok(read_count(alloc, made)),
        Work::Copy => Ok(props.copy(alloc)?.values().len()),
    }
}

/// The same with a table of rows.
fn with_rows(alloc: Global, work: Work, rows: u32, count: u32) -> Result<usize, AllocError> {
    match make_table(alloc)? {
        Some(mut table) => {
            put_names(alloc, &mut table, rows)?;
            over_rows(alloc, work, &table, count)
        }
        None => Ok(0),
    }
}

/// Does the work with a table so many times.
fn over_rows(alloc: Global, work: Work, table: &Table, count: u32) -> Result<usize, AllocError> {
    let made = written_table(alloc, table)?;
    let mut sum: usize = 0;
    for _ in 0..count {
        sum = sum.wrapping_add(rows_once(alloc, work, table, &made)?);
    }
    Ok(sum)
}

/// Does the work with a table, which was written, once.
fn rows_once(
    alloc: Global,
    work: Work,
    table: &Table,
    made: &(Blocks, Subs),
) -> Result<usize, AllocError> {
    match work {
        Work::Write => Ok(written_table(alloc, table)?.0.len()),
        Work::Read => Ok(read_rows(alloc, made)),
        Work::Copy => Ok(table.copy(alloc)?.rows().len()),
    }
}

/// What a word asks for.
fn asked(word: &str) -> (Subject, Work) {
    match word {
        "read" => (Subject::Properties, Work::Read),
        "copy" => (Subject::Properties, Work::Copy),
        "write-rows" => (Subject::Rows, Work::Write),
        "read-rows" => (Subject::Rows, Work::Read),
        "copy-rows" => (Subject::Rows, Work::Copy),
        _ => (Subject::Properties, Work::Write),
    }
}

/// How many blocks, values or rows the passes that the words ask for give in all.
pub(crate) fn report(alloc: Global, words: &[String]) -> Result<String, AllocError> {
    let (subject, work) = words.first().map_or(
        (Subject::Properties, Work::Write),
        |word| asked(word.as_str()),
    );
    let size = number_or(words, 1, 1000);
    let count = number_or(words, 2, 1);
    let sum = match subject {
        Subject::Properties => with_properties(alloc, work, size.min(65_535) as u16, count)?,
        Subject::Rows => with_rows(alloc, work, size, count)?,
    };
    format!(in alloc; "{sum}")
}
