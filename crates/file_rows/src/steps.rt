//! What a keeper gives to steps.
use crate::nodes::{changes, nid, push_nid, push_node};
use node_port::{Keeper, PrepareStop, Saver};
use pst_base::Nid;
use pst_outside::{MemWorld, Part};
use std::alloc::{AllocError, Global};
use std::fmt::Write;
use test_lines::{Trouble, number};

/// Makes the changes of a word by one commit, and says nothing where it is done.
fn commit<K: Keeper<MemWorld>>(
    alloc: Global,
    keeper: &mut K,
    w: &mut MemWorld,
    text: &mut String,
    word: &str,
) -> Result<(), Trouble> {
    let changes = changes(alloc, word)?;
    if !changes.ascend() {
        return Err(Trouble::Spelling);
    }
    match keeper.prepare(alloc, w, changes) {
        Ok(ready) => match keeper.apply(w, ready) {
            Ok(()) => Ok(()),
            Err(_) => Err(Trouble::Place),
        },
        Err(PrepareStop::Full { free, need }) => Ok(write!(text, " full {free} {need}")?),
        Err(_) => Err(Trouble::Place),
    }
}

/// Makes the changes of two words in turn, so often.
fn turns<K: Keeper<MemWorld>>(
    alloc: Global,
    keeper: &mut K,
    w: &mut MemWorld,
    text: &mut String,
    count: u64,
    words: (&str, &str),
) -> Result<(), Trouble> {
    for _ in 0..count {
        commit(alloc, keeper, w, text, words.0)?;
        commit(alloc, keeper, w, text, words.1)?;
    }
    Ok(())
}

/// Adds the node with an id.
fn look<K: Keeper<MemWorld>>(
    alloc: Global,
    keeper: &mut K,
    w: &mut MemWorld,
    text: &mut String,
    nid: Nid,
) -> Result<(), Trouble> {
    let Ok(node) = keeper.get(alloc, w, nid) else {
        return Err(Trouble::Place);
    };
    Ok(push_node(alloc, text, &node)?)
}

/// Adds the least id above one, or the least of all.
fn next<K: Keeper<MemWorld>>(
    keeper: &mut K,
    w: &mut MemWorld,
    text: &mut String,
    nid: Option<Nid>,
) -> Result<(), Trouble> {
    let Ok(next) = keeper.next_after(w, nid) else {
        return Err(Trouble::Place);
    };
    Ok(push_nid(text, next)?)
}

/// Saves what is known beside the nodes, and says nothing where it is done.
fn save<K: Saver<MemWorld>>(keeper: &mut K, w: &mut MemWorld) -> Result<(), Trouble> {
    match keeper.save(w) {
        Ok(()) => Ok(()),
        Err(_) => Err(Trouble::Place),
    }
}

/// Adds how many bytes Main has.
fn push_size(text: &mut String, w: &MemWorld) -> Result<(), AllocError> {
    let size = w.content(Part::Main).len();
    write!(text, " {size}")
}

/// Follows `turns:COUNT:CHANGES|CHANGES`.
fn turn<K: Keeper<MemWorld>>(
    alloc: Global,
    keeper: &mut K,
    w: &mut MemWorld,
    text: &mut String,
    word: &str,
) -> Result<(), Trouble> {
    let Some((count, words)) = word.split_once(':') else {
        return Err(Trouble::Spelling);
    };
    let Some(words) = words.split_once('|') else {
        return Err(Trouble::Spelling);
    };
    turns(alloc, keeper, w, text, number(count)?, words)
}

/// Follows a step, and adds what it gives.
pub fn step<K: Saver<MemWorld>>(
    alloc: Global,
    keeper: &mut K,
    w: &mut MemWorld,
    text: &mut String,
    word: &str,
) -> Result<(), Trouble> {
    match word.split_once(':') {
        Some(("get", id)) => look(alloc, keeper, w, text, nid(id)?),
        Some(("next", id)) => next(keeper, w, text, Some(nid(id)?)),
        Some(("turns", rest)) => turn(alloc, keeper, w, text, rest),
        Some(_) => Err(Trouble::Spelling),
        None => match word {
            "first" => next(keeper, w, text, None),
            "save" => save(keeper, w),
            "size" => Ok(push_size(text, w)?),
            _ => commit(alloc, keeper, w, text, word),
        },
    }
}

/// What each step gives.
pub fn follow<K: Saver<MemWorld>>(
    alloc: Global,
    keeper: &mut K,
    w: &mut MemWorld,
    steps: &str,
) -> Result<String, Trouble> {
    let mut text = String::new(alloc);
    for word in steps.split(' ') {
        step(alloc, keeper, w, &mut text, word)?;
    }
    Ok(String::from_str(alloc, text.as_str().trim_start())?)
}
