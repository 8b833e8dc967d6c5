//! Whether objects of some sizes may be written.
use crate::objects::{message, table};
use crate::values::{make_value, say_whether, small};
use mapi_values::{Props, Table, Tag, Value};
use pst_base::{Blocks, Bytes, Nid, Sub, Subs};
use std::alloc::Global;
use test_lines::{Trouble, Words};
use write_limits::{message_fits, props_fit};

/// So many subnodes without data.
fn make_subs(alloc: Global, count: u32) -> Result<Subs, Trouble> {
    let mut subs = Vec::new(alloc);
    for bits in 0..count {
        subs.push(Sub {
            nid: Nid { bits },
            blocks: Blocks::new(alloc),
            subs: Subs::new(alloc),
        })?;
    }
    Ok(Subs::from_vec(subs))
}

/// A binary value of a length.
fn binary(alloc: Global, id: u16, len: usize) -> Result<Value, Trouble> {
    let mut bytes = Vec::new(alloc);
    bytes.resize(len, 0)?;
    make_value(Tag { id, kind: 0x0102 }, Bytes::from_vec(bytes))
}

/// So many binary values of a length.
fn make_props(alloc: Global, count: u16, len: usize) -> Result<Props, Trouble> {
    let mut props = Props::new(alloc);
    for id in 0..count {
        props.put(binary(alloc, id, len)?)?;
    }
    Ok(props)
}

/// Adds whether values and so many subnodes may stand in one object.
fn say_fit(alloc: Global, text: &mut String, props: &Props, count: u32) -> Result<(), Trouble> {
    let rest = make_subs(alloc, count)?;
    say_whether(text, props_fit(props, &rest))
}

/// Whether so many subnodes and so many binary values of a length may stand in one object.
pub fn ask_props_fit(alloc: Global, text: &mut String, words: &mut Words) -> Result<(), Trouble> {
    let subnodes = words.id()?;
    let count = small(words.word()?)?;
    let len = words.size()?;
    let props = make_props(alloc, count, len)?;
    say_fit(alloc, text, &props, subnodes)
}

/// Whether a message of these values and recipients may be written.
fn fits(alloc: Global, props: Props, recipients: Table) -> bool {
    message_fits(&message(alloc, props, Some(recipients)))
}

/// Whether a message may be written whose table of recipients has rows of this size.
pub fn ask_message_fits(
    alloc: Global,
    text: &mut String,
    words: &mut Words,
) -> Result<(), Trouble> {
    let size = small(words.word()?)?;
    let props = make_props(alloc, 2, 3581)?;
    let recipients = table(alloc, Vec::new(alloc), [0, 0, 0, size])?;
    say_whether(text, fits(alloc, props, recipients))
}
