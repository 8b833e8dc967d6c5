//! What a keeper with pins gives to steps.
use crate::nodes::{nid, push_nid, push_node};
use crate::steps::step;
use node_port::{Pinner, Saver};
use pst_base::{MemOr, Nid};
use pst_outside::MemWorld;
use std::alloc::{AllocError, Global};
use std::fmt::Write;
use test_lines::{Trouble, number};

/// The number of a pin.
fn pin_number(word: &str) -> Result<u32, Trouble> {
    u32::try_from(number(word)?).ok().ok_or(Trouble::Spelling)
}

/// Adds an answer.
fn push_answer(text: &mut String, is_so: bool) -> Result<(), AllocError> {
    text.push_str(if is_so { " yes" } else { " no" })
}

/// Pins the nodes, and adds the number of the pin.
fn pin<K: Pinner<MemWorld>>(
    alloc: Global,
    keeper: &mut K,
    text: &mut String,
) -> Result<(), Trouble> {
    match keeper.pin(alloc) {
        Ok(number) => Ok(write!(text, " {number}")?),
        Err(MemOr::Memory) => Err(Trouble::Memory),
        Err(_) => Ok(text.push_str(" full")?),
    }
}

/// Adds the node with an id as a pin tells it.
fn look_at<K: Pinner<MemWorld>>(
    alloc: Global,
    keeper: &mut K,
    w: &mut MemWorld,
    text: &mut String,
    pin: u32,
    nid: Nid,
) -> Result<(), Trouble> {
    if !keeper.has_pin(pin) {
        return Err(Trouble::Name);
    }
    let Ok(node) = keeper.get_at(alloc, w, pin, nid) else {
        return Err(Trouble::Place);
    };
    Ok(push_node(alloc, text, &node)?)
}

/// Adds the least id above one, or the least of all, as a pin tells them.
fn next_at<K: Pinner<MemWorld>>(
    keeper: &mut K,
    w: &mut MemWorld,
    text: &mut String,
    pin: u32,
    nid: Option<Nid>,
) -> Result<(), Trouble> {
    if !keeper.has_pin(pin) {
        return Err(Trouble::Name);
    }
    let Ok(next) = keeper.next_at(w, pin, nid) else {
        return Err(Trouble::Place);
    };
    Ok(push_nid(text, next)?)
}

/// Follows `at:PIN:NID` and `next-at:PIN:NID`.
fn step_at<K: Pinner<MemWorld>>(
    alloc: Global,
    keeper: &mut K,
    w: &mut MemWorld,
    text: &mut String,
    is_next: bool,
    word: &str,
) -> Result<(), Trouble> {
    let Some((pin, id)) = word.split_once(':') else {
        return Err(Trouble::Spelling);
    };
    let pin = pin_number(pin)?;
    let nid = nid(id)?;
    if is_next {
        next_at(keeper, w, text, pin, Some(nid))
    } else {
        look_at(alloc, keeper, w, text, pin, nid)
    }
}

/// Follows a step, and adds what it gives.
fn pin_step<K: Pinner<MemWorld> + Saver<MemWorld>>(
    alloc: Global,
    keeper: &mut K,
    w: &mut MemWorld,
    text: &mut String,
    word: &str,
) -> Result<(), Trouble> {
    match word.split_once(':') {
        Some(("at", rest)) => step_at(alloc, keeper, w, text, false, rest),
        Some(("next-at", rest)) => step_at(alloc, keeper, w, text, true, rest),
        Some(("first-at", pin)) => next_at(keeper, w, text, pin_number(pin)?, None),
        Some(("has", pin)) => Ok(push_answer(text, keeper.has_pin(pin_number(pin)?))?),
        Some(("unpin", pin)) => Ok(push_answer(text, keeper.unpin(pin_number(pin)?))?),
        None if word == "pin" => pin(alloc, keeper, text),
        _ => step(alloc, keeper, w, text, word),
    }
}

/// What each step gives.
pub fn follow<K: Pinner<MemWorld> + Saver<MemWorld>>(
    alloc: Global,
    keeper: &mut K,
    w: &mut MemWorld,
    steps: &str,
) -> Result<String, Trouble> {
    let mut text = String::new(alloc);
    for word in steps.split(' ') {
        pin_step(alloc, keeper, w, &mut text, word)?;
    }
    Ok(String::from_str(alloc, text.as_str().trim_start())?)
}
