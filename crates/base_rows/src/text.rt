//! Text as UTF-16 units, and values as lines spell them.
use crate::values::{make_value, say, say_bytes, short};
use mapi_values::{Tag, Units, Value};
use pst_base::{Bytes, MemOr};
use std::alloc::Global;
use std::fmt::Write;
use test_lines::{Trouble, Words};
use value_text::{parse_value, value_text};

/// The units of words of hex digits.
fn units(alloc: Global, words: &str) -> Result<Units, Trouble> {
    let mut units = Vec::new(alloc);
    for word in words.split(' ') {
        let unit = short(word)?;
        units.push(unit)?;
    }
    Ok(Units::from_vec(units))
}

/// Adds units in hex digits.
fn say_units(text: &mut String, units: &[u16]) -> Result<(), Trouble> {
    let mut before = "";
    for unit in units {
        write!(text, "{before}{unit:04x}")?;
        before = " ";
    }
    Ok(())
}

/// Adds units with their case folded.
fn say_folded(alloc: Global, text: &mut String, units: &Units, strip: bool) -> Result<(), Trouble> {
    let folded = units.fold(alloc, strip)?;
    say_units(text, folded.as_slice())
}

/// Units with their case folded, and without nonspacing marks where they are to be stripped.
pub fn ask_fold(
    alloc: Global,
    text: &mut String,
    words: &mut Words,
    strip: bool,
) -> Result<(), Trouble> {
    let units = units(alloc, words.rest())?;
    say_folded(alloc, text, &units, strip)
}

/// Adds the text of a value.
fn say_value(alloc: Global, text: &mut String, value: &Value) -> Result<(), Trouble> {
    let printed = value_text(alloc, value)?;
    say(text, printed.as_str())
}

/// Adds the bytes of a value, and its own text.
fn say_both(alloc: Global, text: &mut String, value: &Value) -> Result<(), Trouble> {
    say_bytes(text, value.bytes())?;
    say(text, " ")?;
    say_value(alloc, text, value)
}

/// The tag of a value of a kind.
fn tag(words: &mut Words) -> Result<Tag, Trouble> {
    let kind = short(words.word()?)?;
    Ok(Tag { id: 0x37, kind })
}

/// The bytes of the value that a text says, and its own text.
pub fn ask_value(alloc: Global, text: &mut String, words: &mut Words) -> Result<(), Trouble> {
    let tag = tag(words)?;
    match parse_value(alloc, tag, words.rest()) {
        Ok(value) => say_both(alloc, text, &value),
        Err(MemOr::Refused(_)) => say(text, "no value"),
        Err(MemOr::Memory) => Err(Trouble::Memory),
    }
}

/// The text that is printed of a value.
pub fn ask_print(alloc: Global, text: &mut String, words: &mut Words) -> Result<(), Trouble> {
    let tag = tag(words)?;
    let bytes = Bytes::from_vec(words.bytes(alloc)?);
    let value = make_value(tag, bytes)?;
    say_value(alloc, text, &value)
}
