//! Bytes as a word spells them: pieces parted by commas, and `-` where there is none.
//!
//! A piece is a number of hex digits, `BYTE*N` for so many times a byte, `BYTE+STEP*N` for so many bytes of which each is that much more than the one before it, or `'TEXT'` for an ASCII text as UTF-16.
use crate::trouble::Trouble;
use crate::words::number;
use hex::FromHexError;
use std::alloc::{AllocError, Global};
use std::fmt::Write;

/// The most bytes of one piece.
const MOST: u64 = 1 << 28;

/// How many equal bytes are spelled by their number.
const RUN: u64 = 5;

/// The bytes that a word spells.
pub fn read_bytes(alloc: Global, word: &str) -> Result<Vec<u8>, Trouble> {
    let mut bytes = Vec::new(alloc);
    if word != "-" {
        for piece in word.split(',') {
            add_piece(alloc, &mut bytes, piece)?;
        }
    }
    Ok(bytes)
}

fn add_piece(alloc: Global, bytes: &mut Vec<u8>, piece: &str) -> Result<(), Trouble> {
    if let Some(text) = piece.strip_prefix('\'') {
        return add_text(bytes, text);
    }
    match piece.split_once('*') {
        Some((byte, count)) => add_counted(alloc, bytes, byte, number(count)?),
        None => Ok(bytes.extend_from_slice(digits(alloc, piece)?.as_slice())?),
    }
}

/// The bytes that hex digits spell.
fn digits(alloc: Global, piece: &str) -> Result<Vec<u8>, Trouble> {
    match hex::decode(alloc, piece) {
        Ok(bytes) => Ok(bytes),
        Err(FromHexError::OutOfMemory) => Err(Trouble::Memory),
        Err(_) => Err(Trouble::Spelling),
    }
}

/// The byte that two hex digits spell.
fn byte(alloc: Global, piece: &str) -> Result<u8, Trouble> {
    match digits(alloc, piece)?.as_slice() {
        [byte] => Ok(*byte),
        _ => Err(Trouble::Spelling),
    }
}

/// Adds the bytes of `BYTE*N` or `BYTE+STEP*N`.
fn add_counted(alloc: Global, bytes: &mut Vec<u8>, piece: &str, count: u64) -> Result<(), Trouble> {
    let (first, step) = piece.split_once('+').unwrap_or((piece, "00"));
    let mut next = byte(alloc, first)?;
    let step = byte(alloc, step)?;
    for _ in 0..count.min(MOST) {
        bytes.push(next)?;
        next = next.wrapping_add(step);
    }
    Ok(())
}

/// Adds an ASCII text, which a `'` ends, as UTF-16.
fn add_text(bytes: &mut Vec<u8>, text: &str) -> Result<(), Trouble> {
    let Some(text) = text.strip_suffix('\'') else {
        return Err(Trouble::Spelling);
    };
    for byte in text.as_bytes() {
        bytes.push(*byte)?;
        bytes.push(0)?;
    }
    Ok(())
}

/// A word that spells bytes, of which each was given.
#[derive(Drop)]
struct Spelling<'a> {
    text: &'a mut String,
    /// Whether the word has no piece yet.
    is_empty: bool,
    /// Whether the last piece is done.
    is_ended: bool,
}

impl Spelling<'_> {
    /// Adds so many times a byte.
    fn add_run(&mut self, byte: u8, count: u64) -> Result<(), AllocError> {
        if count == 0 {
            return Ok(());
        }
        let is_counted = count >= RUN;
        if !self.is_empty && (is_counted || self.is_ended) {
            self.text.push(',')?;
        }
        self.is_empty = false;
        self.is_ended = is_counted;
        if is_counted {
            return write!(self.text, "{byte:02x}*{count}");
        }
        for _ in 0..count {
            write!(self.text, "{byte:02x}")?;
        }
        Ok(())
    }
}

/// Adds the word that spells these bytes, in which five and more equal bytes are spelled by their number.
pub fn push_bytes(text: &mut String, bytes: &[u8]) -> Result<(), AllocError> {
    if bytes.is_empty() {
        return text.push('-');
    }
    let mut spelling = Spelling {
        text,
        is_empty: true,
        is_ended: false,
    };
    let mut last = 0u8;
    let mut count = 0u64;
    for byte in bytes {
        if *byte != last {
            spelling.add_run(last, count)?;
            last = *byte;
            count = 0;
        }
        count = count.saturating_add(1);
    }
    spelling.add_run(last, count)
}
