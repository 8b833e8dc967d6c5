//! Places that are given, taken and freed, and the map pages.
use crate::frames::bytes_text;
use alloc_map::Slots;
use pst_base::Place;
use std::alloc::Global;
use std::fmt::Write;
use std::mem;
use test_lines::{Trouble, Words, number};

/// The free slots of so many regions.
fn regions(alloc: Global, words: &mut Words) -> Result<Slots, Trouble> {
    let count = words.id()?;
    if count < 1 || count > 8192 {
        return Err(Trouble::Spelling);
    }
    Slots::rebuild(alloc, &[], count).ok().ok_or(Trouble::Place)
}

/// The place of a piece `IB+LEN`.
fn place(piece: &str) -> Result<Place, Trouble> {
    let Some((ib, len)) = piece.split_once('+') else {
        return Err(Trouble::Spelling);
    };
    Ok(Place {
        ib: number(ib)?,
        len: number(len)?,
    })
}

/// The places of a word, `IB+LEN` parted by commas.
fn places(alloc: Global, word: &str) -> Result<Vec<Place>, Trouble> {
    let mut places = Vec::new(alloc);
    for piece in word.split(',') {
        places.push(place(piece)?)?;
    }
    Ok(places)
}

/// Adds what a step gives, with a space before it where it isn't the first.
fn push_answer(text: &mut String, answer: Option<u64>) -> Result<(), Trouble> {
    let space = if text.is_empty() { "" } else { " " };
    let pushed = match answer {
        Some(number) => write!(text, "{space}{number}"),
        None => write!(text, "{space}none"),
    };
    Ok(pushed?)
}

/// Gives a number of blocks of a length, and the start of the last.
fn place_blocks(slots: &mut Slots, len: u64, count: u64) -> Result<Option<u64>, Trouble> {
    if len < 64 || len > 8192 || len % 64 != 0 {
        return Err(Trouble::Spelling);
    }
    let mut last = None;
    for _ in 0..count {
        last = slots.place_block(len as usize);
    }
    Ok(last)
}

/// Makes the first set the other, or the union of both.
fn join(slots: &mut Slots, other: &Slots, unites: bool) -> Result<(), Trouble> {
    if slots.regions() != other.regions() {
        return Err(Trouble::Place);
    }
    if unites {
        slots.unite(other);
    } else {
        slots.assign(other);
    }
    Ok(())
}

/// Two sets of slots, of which steps change the first.
#[derive(Drop)]
struct Sets {
    slots: Slots,
    other: Slots,
}

impl Sets {
    /// Keeps a copy of the set as the other one.
    fn copy(&mut self, alloc: Global) -> Result<(), Trouble> {
        self.other = self.slots.copy(alloc)?;
        Ok(())
    }

    /// Follows a step without numbers.
    fn plain_step(&mut self, alloc: Global, text: &mut String, step: &str) -> Result<(), Trouble> {
        match step {
            "page" => push_answer(text, self.slots.place_page()),
            "cells" => push_answer(text, Some(self.slots.free_cells())),
            "copy" => self.copy(alloc),
            "swap" => {
                mem::swap(&mut self.slots, &mut self.other);
                Ok(())
            }
            "unite" => join(&mut self.slots, &self.other, true),
            "assign" => join(&mut self.slots, &self.other, false),
            _ => Err(Trouble::Spelling),
        }
    }

    /// Gives a number of blocks of a length, and adds the start of the last.
    fn place(&mut self, text: &mut String, len: u64, count: u64) -> Result<(), Trouble> {
        push_answer(text, place_blocks(&mut self.slots, len, count)?)
    }

    /// Frees places, or takes them again.
    fn move_places(&mut self, places: &[Place], frees: bool) {
        if frees {
            self.slots.release(places);
        } else {
            self.slots.retake(places);
        }
    }

    /// Follows a step with numbers, and adds what it gives.
    fn number_step(
        &mut self,
        alloc: Global,
        text: &mut String,
        verb: &str,
        numbers: &str,
    ) -> Result<(), Trouble> {
        match verb {
            "block" => self.place(text, number(numbers)?, 1),
            "blocks" => self.place(text, 8192, number(numbers)?),
            "release" | "retake" => {
                let places = places(alloc, numbers)?;
                self.move_places(places.as_slice(), verb == "release");
                Ok(())
            }
            _ => Err(Trouble::Spelling),
        }
    }

    /// Follows a step, and adds what it gives.
    fn step(&mut self, alloc: Global, text: &mut String, step: &str) -> Result<(), Trouble> {
        match step.split_once(':') {
            None => self.plain_step(alloc, text, step),
            Some((verb, numbers)) => self.number_step(alloc, text, verb, numbers),
        }
    }
}

/// A set of so many free regions, twice.
fn twice(alloc: Global, words: &mut Words) -> Result<Sets, Trouble> {
    let slots = regions(alloc, words)?;
    let other = slots.copy(alloc)?;
    Ok(Sets { slots, other })
}

/// What each step gives, parted by spaces.
fn follow(alloc: Global, sets: &mut Sets, steps: &str) -> Result<String, Trouble> {
    let mut text = String::new(alloc);
    for step in steps.split(' ') {
        sets.step(alloc, &mut text, step)?;
    }
    Ok(text)
}

/// What each step gives, in a set of so many regions.
pub fn ask_place(alloc: Global, words: &mut Words) -> Result<String, Trouble> {
    let mut sets = twice(alloc, words)?;
    follow(alloc, &mut sets, words.rest())
}

/// The place of a page, then that of a slot while the page was given back and taken again, and then when it was given back.
fn lend(slots: &mut Slots) -> Option<(u64, u64, u64)> {
    let ib = slots.place_page()?;
    let page = Place { ib, len: 512 };
    slots.give_back(page);
    slots.mark(page);
    let behind = slots.place_block(64)?;
    slots.give_back(page);
    let again = slots.place_block(64)?;
    Some((ib, behind, again))
}

/// What `lend` gives in a set of so many regions.
pub fn ask_lend(alloc: Global, words: &mut Words) -> Result<String, Trouble> {
    let mut slots = regions(alloc, words)?;
    lent_text(alloc, lend(&mut slots))
}

/// The three places, if there were so many.
fn lent_text(alloc: Global, lent: Option<(u64, u64, u64)>) -> Result<String, Trouble> {
    let Some((page, behind, again)) = lent else {
        return Err(Trouble::Place);
    };
    Ok(format!(in alloc; "{page} {behind} {again}")?)
}

/// The map page of the region of the next word, if it is one of the set.
fn map_text(alloc: Global, slots: &Slots, words: &mut Words) -> Result<String, Trouble> {
    let region = words.id()?;
    if region >= slots.regions() {
        return Err(Trouble::Place);
    }
    bytes_text(alloc, &slots.map_page(region))
}

/// The map page of a region of a set of so many.
pub fn ask_map(alloc: Global, words: &mut Words) -> Result<String, Trouble> {
    let slots = regions(alloc, words)?;
    map_text(alloc, &slots, words)
}
