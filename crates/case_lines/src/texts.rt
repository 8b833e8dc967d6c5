//! Lines of input and of replies.
use crate::edits::add_bytes;
use std::alloc::Global;
use test_lines::{Trouble, Words, hex_number};

/// Adds what a line gives to the input or to the replies: its first word without the `>` or `<`, and what follows.
pub fn add_text(
    alloc: Global,
    text: &mut Vec<u8>,
    sort: &str,
    words: &mut Words,
) -> Result<(), Trouble> {
    match sort {
        "" => add_line(text, words.rest()),
        "-" => add_again(text, 1, words.rest()),
        "hex" => add_bytes(alloc, text, words),
        "*" => add_lines(alloc, text, words),
        "x" => add_again(text, words.number()?, words.rest()),
        _ => Err(Trouble::Spelling),
    }
}

fn add_line(text: &mut Vec<u8>, line: &str) -> Result<(), Trouble> {
    text.extend_from_slice(line.as_bytes())?;
    Ok(text.push(b'\n')?)
}

/// Adds the same text so many times.
fn add_again(text: &mut Vec<u8>, count: u64, piece: &str) -> Result<(), Trouble> {
    for _ in 0..count {
        text.extend_from_slice(piece.as_bytes())?;
    }
    Ok(())
}

/// A line with a number that goes up from one such line to the next.
#[derive(Clone, Copy)]
struct Counted<'a> {
    before: &'a str,
    after: &'a str,
    /// How many hex digits the number has at least.
    digits: usize,
    first: u64,
    step: u64,
}

impl<'a> Counted<'a> {
    /// The line of this spelling: `{HEX}` in it is a number that goes up by 1, and `{HEX+HEX}` one that goes up by the second; without such a word it is always the same.
    fn read(line: &'a str) -> Result<Counted<'a>, Trouble> {
        match line.split_once('{') {
            Some((before, rest)) => Counted::read_number(before, rest),
            None => Ok(Counted {
                before: line,
                after: "",
                digits: 0,
                first: 0,
                step: 0,
            }),
        }
    }

    /// The line with some text before a number, by the text behind the `{` of that.
    fn read_number(before: &'a str, rest: &'a str) -> Result<Counted<'a>, Trouble> {
        let Some((number, after)) = rest.split_once('}') else {
            return Err(Trouble::Spelling);
        };
        let (first, step) = number.split_once('+').unwrap_or((number, "1"));
        Ok(Counted {
            before,
            after,
            digits: first.len(),
            first: hex_number(first)?,
            step: hex_number(step)?,
        })
    }
}

/// Adds so many lines.
fn add_lines(alloc: Global, text: &mut Vec<u8>, words: &mut Words) -> Result<(), Trouble> {
    let count = words.number()?;
    let line = Counted::read(words.rest())?;
    let mut number = line.first;
    for _ in 0..count {
        text.extend_from_slice(line.before.as_bytes())?;
        add_number(alloc, text, line.digits, number)?;
        add_line(text, line.after)?;
        number = number.saturating_add(line.step);
    }
    Ok(())
}

/// Adds a number in hex with at least so many digits, or nothing where these are 0.
fn add_number(
    alloc: Global,
    text: &mut Vec<u8>,
    digits: usize,
    number: u64,
) -> Result<(), Trouble> {
    if digits == 0 {
        return Ok(());
    }
    let word = format!(in alloc; "{number:x}")?;
    add_again(text, digits.saturating_sub(word.len()) as u64, "0")?;
    Ok(text.extend_from_slice(word.as_bytes())?)
}
