//! Values as words spell them: `TAG=BYTES`, with a tag of eight hex digits. What the other modules say with is here too.
use mapi_values::{Props, Tag, Value, fits};
use pst_base::Bytes;
use std::alloc::Global;
use std::fmt::Write;
use test_lines::{Trouble, hex_number, number, push_bytes, read_bytes};

/// Adds a word.
pub fn say(text: &mut String, word: &str) -> Result<(), Trouble> {
    Ok(text.push_str(word)?)
}

/// Parts what follows from what stands there already, if anything does.
pub fn part(text: &mut String) -> Result<(), Trouble> {
    if !text.is_empty() {
        text.push(' ')?;
    }
    Ok(())
}

/// Adds the word for a truth.
pub fn say_whether(text: &mut String, is_so: bool) -> Result<(), Trouble> {
    say(text, if is_so { "true" } else { "false" })
}

/// Adds the word that spells these bytes.
pub fn say_bytes(text: &mut String, bytes: &[u8]) -> Result<(), Trouble> {
    Ok(push_bytes(text, bytes)?)
}

/// Adds a number.
pub fn say_number(text: &mut String, number: usize) -> Result<(), Trouble> {
    Ok(write!(text, "{number}")?)
}

/// A number of 16 bits, of hex digits.
pub fn short(digits: &str) -> Result<u16, Trouble> {
    u16::try_from(hex_number(digits)?)
        .ok()
        .ok_or(Trouble::Spelling)
}

/// A number of 16 bits, in decimal or in hex after `0x`.
pub fn small(word: &str) -> Result<u16, Trouble> {
    u16::try_from(number(word)?).ok().ok_or(Trouble::Spelling)
}

/// The tag of eight hex digits.
pub fn tag(digits: &str) -> Result<Tag, Trouble> {
    let number = hex_number(digits)?;
    let id = u16::try_from(number >> 16).ok().ok_or(Trouble::Spelling)?;
    let kind = u16::try_from(number & 0xFFFF)
        .ok()
        .ok_or(Trouble::Spelling)?;
    Ok(Tag { id, kind })
}

/// A value of these bytes.
pub fn make_value(tag: Tag, bytes: Bytes) -> Result<Value, Trouble> {
    if !fits(tag.kind, bytes.len()) {
        return Err(Trouble::Spelling);
    }
    Ok(Value::new(tag, bytes))
}

/// The value that a word spells.
fn value(alloc: Global, word: &str) -> Result<Value, Trouble> {
    let Some((digits, bytes)) = word.split_once('=') else {
        return Err(Trouble::Spelling);
    };
    let tag = tag(digits)?;
    make_value(tag, Bytes::from_vec(read_bytes(alloc, bytes)?))
}

/// Removes the value of an id, which must be there.
fn remove(props: &mut Props, id: &str) -> Result<(), Trouble> {
    if props.remove(short(id)?) {
        Ok(())
    } else {
        Err(Trouble::Name)
    }
}

/// Puts the value that a word spells, or removes the one of an id after a `-`.
fn step(alloc: Global, props: &mut Props, word: &str) -> Result<(), Trouble> {
    match word.strip_prefix('-') {
        Some(id) => remove(props, id),
        None => Ok(props.put(value(alloc, word)?)?),
    }
}

/// The values after the steps that words spell.
pub fn props(alloc: Global, words: &str) -> Result<Props, Trouble> {
    let mut props = Props::new(alloc);
    for word in words.split(' ') {
        step(alloc, &mut props, word)?;
    }
    Ok(props)
}

/// Adds the words that spell values.
pub fn say_props(text: &mut String, props: &Props) -> Result<(), Trouble> {
    let mut before = "";
    for value in props.values() {
        let id = value.id();
        let kind = value.kind();
        write!(text, "{before}{id:04x}{kind:04x}=")?;
        push_bytes(text, value.bytes())?;
        before = " ";
    }
    Ok(())
}
