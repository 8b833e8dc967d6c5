//! The fields of a header.
use crate::frames::array;
use pst_base::Bref;
use pst_header::{Header, read};
use std::alloc::{AllocError, Global};
use std::fmt::Write;
use test_lines::{Trouble, Words, push_bytes};

/// Adds the fields that are numbers.
fn push_numbers(text: &mut String, h: &Header) -> Result<(), AllocError> {
    let (wver, crypt, unique, maps) = (h.wver, h.crypt, h.unique, h.maps);
    write!(text, "{wver} {crypt} {unique} {maps}")?;
    let numbers = [
        h.next_block,
        h.next_page,
        h.eof,
        h.amap_last,
        h.amap_free,
        h.pmap_free,
    ];
    for number in numbers {
        write!(text, " {number:x}")?;
    }
    Ok(())
}

fn push_bref(text: &mut String, at: Bref) -> Result<(), AllocError> {
    let Bref { bid, ib } = at;
    let bits = bid.bits;
    write!(text, " {bits:x}@{ib:x}")
}

/// Adds the indexes and the bytes that are kept.
fn push_lists(text: &mut String, h: &Header) -> Result<(), AllocError> {
    for index in h.indexes {
        write!(text, " {index:x}")?;
    }
    text.push(' ')?;
    push_bytes(text, &h.kept)
}

/// Adds all fields.
fn push_header(text: &mut String, h: &Header) -> Result<(), AllocError> {
    push_numbers(text, h)?;
    push_bref(text, h.nbt)?;
    push_bref(text, h.bbt)?;
    push_lists(text, h)
}

/// The fields in the order of `Header`, the indexes as their first and their last, and at last the bytes that are kept.
pub fn answer(alloc: Global, words: &mut Words) -> Result<String, Trouble> {
    let header = array::<564>(alloc, words)?;
    let mut text = String::new(alloc);
    let pushed = match read(&header) {
        Ok(h) => push_header(&mut text, &h),
        Err(refusal) => write!(text, "{refusal}"),
    };
    pushed?;
    Ok(text)
}
