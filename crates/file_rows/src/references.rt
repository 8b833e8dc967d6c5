//! The numbers of references by keys, changed.
ghost use Rattle.std.specs.Prelude.{IfOk};
ghost use Rattle.ref_counts.specs.Changes.{key_in};
ghost use Rattle.ref_counts.specs.Tables.{IsAscending};

use ref_counts::{RefChange, RefCounts};
use std::alloc::Global;
use std::fmt::Write;
use test_lines::{Trouble, Words, number};

/// The keys of a word, which commas part.
fn keys(alloc: Global, word: &str) -> Result<Vec<u64>, Trouble> {
    let mut keys = Vec::new(alloc);
    if word != "-" {
        for key in word.split(',') {
            keys.push(number(key)?)?;
        }
    }
    Ok(keys)
}

/// Adds the numbers of the keys 1 to 6.
fn push_numbers(text: &mut String, table: &RefCounts) -> Result<(), Trouble> {
    for key in 1..7 {
        let refs = table.get(key);
        write!(text, "{refs}")?;
    }
    Ok(())
}

/// The table of the keys of the next word.
fn counted(alloc: Global, words: &mut Words) -> Result<RefCounts, Trouble> {
    let keys = keys(alloc, words.word()?)?;
    Ok(RefCounts::count(alloc, keys)?)
}

/// What becomes of a table as some keys are taken, and others put.
fn changes(
    alloc: Global,
    table: &RefCounts,
    taken: &str,
    put: &str,
) -> Result<Vec<RefChange>, Trouble>
    ensures { IfOk result (λ changes. IsAscending key_in changes.items) }
{
    let taken = keys(alloc, taken)?;
    let put = keys(alloc, put)?;
    Ok(table.changes(alloc, taken, put)?)
}

/// Adds the numbers of the keys 1 to 6 before and after some keys were taken, and others put.
fn push_changed(
    alloc: Global,
    text: &mut String,
    table: &mut RefCounts,
    words: &mut Words,
) -> Result<(), Trouble> {
    let (taken, put) = (words.word()?, words.word()?);
    let changes = changes(alloc, table, taken, put)?;
    table.make_room(changes.as_slice())?;
    push_numbers(text, table)?;
    text.push(' ')?;
    table.adopt(changes.as_slice());
    push_numbers(text, table)
}

/// The numbers of the keys 1 to 6, as keys are referred to at first, and after some references were taken and others put.
pub fn answer(alloc: Global, words: &mut Words) -> Result<String, Trouble> {
    let mut text = String::new(alloc);
    let mut table = counted(alloc, words)?;
    push_changed(alloc, &mut text, &mut table, words)?;
    Ok(text)
}
