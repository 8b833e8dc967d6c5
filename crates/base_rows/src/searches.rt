//! The criteria of searches.
use crate::values::{props, say, say_props};
use mapi_values::Props;
use pst_base::{MemOr, Nid};
use search_obj::{
    Criteria, CriteriaSet, SearchFlags, SearchState, Version, read_search, scope_of, write_search,
};
use std::alloc::Global;
use std::fmt::Write;
use test_lines::{Trouble, Words, hex_number};

fn state_word(state: SearchState) -> &'static str {
    match state {
        SearchState::Running => "running",
        SearchState::Static => "static",
        SearchState::Stopped => "stopped",
    }
}

/// What a search does under flags, where it may have them.
pub fn ask_flags(text: &mut String, words: &mut Words) -> Result<(), Trouble> {
    let word = match SearchFlags::from_number(words.id()?) {
        Some(flags) => state_word(flags.state()),
        None => "refused",
    };
    say(text, word)
}

/// Adds what was set of criteria.
fn say_set(text: &mut String, set: &CriteriaSet) -> Result<(), Trouble> {
    let state = state_word(set.flags.state());
    let builds = set.builds;
    Ok(write!(text, " {state} {builds}")?)
}

fn say_criteria(text: &mut String, criteria: &Criteria) -> Result<(), Trouble> {
    let version = match criteria.version {
        Version::First => "first",
        Version::Second => "second",
    };
    say(text, version)?;
    match &criteria.set {
        None => say(text, " unset"),
        Some(set) => say_set(text, set),
    }
}

/// Adds what the object of a search folder tells.
fn say_search(alloc: Global, text: &mut String, object: &Props) -> Result<(), Trouble> {
    match read_search(alloc, object) {
        Ok(None) => say(text, "foreign"),
        Ok(Some(criteria)) => say_criteria(text, &criteria),
        Err(MemOr::Refused(_)) => say(text, "fault"),
        Err(MemOr::Memory) => Err(Trouble::Memory),
    }
}

/// What the object of a search folder tells.
pub fn ask_criteria(alloc: Global, text: &mut String, words: &mut Words) -> Result<(), Trouble> {
    let object = props(alloc, words.rest())?;
    say_search(alloc, text, &object)
}

/// The criteria that an object tells.
fn told(alloc: Global, object: &Props) -> Result<Criteria, Trouble> {
    match read_search(alloc, object) {
        Ok(Some(criteria)) => Ok(criteria),
        _ => Err(Trouble::Spelling),
    }
}

/// The criteria that values tell.
fn criteria(alloc: Global, values: &str) -> Result<Criteria, Trouble> {
    let object = props(alloc, values)?;
    told(alloc, &object)
}

/// Adds what values are once they tell these criteria.
fn say_written(
    alloc: Global,
    text: &mut String,
    criteria: &Criteria,
    values: &str,
) -> Result<(), Trouble> {
    let object = props(alloc, values)?;
    let written = write_search(alloc, object, criteria)?;
    say_props(text, &written)
}

/// Adds what values are after a line with these flags, or that the line was refused, since there is nothing to keep.
fn say_change(
    alloc: Global,
    text: &mut String,
    before: &Criteria,
    flags: SearchFlags,
    values: &str,
) -> Result<(), Trouble> {
    if !flags.are_allowed() {
        return Err(Trouble::Spelling);
    }
    match before.changed(alloc, flags, None, None) {
        Ok(after) => say_written(alloc, text, &after, values),
        Err(MemOr::Refused(_)) => say(text, "refused"),
        Err(MemOr::Memory) => Err(Trouble::Memory),
    }
}

/// The object after a line with these flags, which keeps the scope and the restriction.
pub fn ask_change(alloc: Global, text: &mut String, words: &mut Words) -> Result<(), Trouble> {
    let Some(flags) = SearchFlags::from_number(words.id()?) else {
        return Err(Trouble::Spelling);
    };
    let values = words.rest();
    let before = criteria(alloc, values)?;
    say_change(alloc, text, &before, flags, values)
}

fn nid(word: &str) -> Result<Nid, Trouble> {
    let bits = u32::try_from(hex_number(word)?)
        .ok()
        .ok_or(Trouble::Spelling)?;
    Ok(Nid { bits })
}

/// The folder and its parent that a word `FOLDER:PARENT` tells.
fn pair(word: &str) -> Result<(Nid, Nid), Trouble> {
    let Some((folder, parent)) = word.split_once(':') else {
        return Err(Trouble::Spelling);
    };
    Ok((nid(folder)?, nid(parent)?))
}

/// The pairs of folders and their parents that words tell.
fn pairs(alloc: Global, words: &str) -> Result<Vec<(Nid, Nid)>, Trouble> {
    let mut pairs = Vec::new(alloc);
    for word in words.split(' ') {
        let pair = pair(word)?;
        pairs.push(pair)?;
    }
    Ok(pairs)
}

/// Adds the ids in hex.
fn say_ids(text: &mut String, ids: &[Nid]) -> Result<(), Trouble> {
    let mut before = "";
    for id in ids {
        let bits = id.bits;
        write!(text, "{before}{bits:x}")?;
        before = " ";
    }
    Ok(())
}

/// Adds the folders that a search with criteria is about, among those that words tell.
fn say_scope(
    alloc: Global,
    text: &mut String,
    criteria: &Criteria,
    words: &mut Words,
) -> Result<(), Trouble> {
    let Some(set) = &criteria.set else {
        return Err(Trouble::Spelling);
    };
    let plain = pairs(alloc, words.rest())?;
    let folders = scope_of(alloc, set, plain.as_slice())?;
    say_ids(text, folders.as_slice())
}

/// The folders that a search is about.
pub fn ask_scope(alloc: Global, text: &mut String, words: &mut Words) -> Result<(), Trouble> {
    let criteria = criteria(alloc, words.part().rest())?;
    say_scope(alloc, text, &criteria, words)
}
