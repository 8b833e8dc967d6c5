//! Heaps: where the maps of their blocks stand, their roots, and their items.
use crate::making::heap;
use crate::nodes::id;
use crate::trees::{say_entry, say_tree};
use crate::values::{part, say, say_bytes, say_number};
use heap_on_node::HeapView;
use pst_base::{Bytes, u16_at};
use std::alloc::Global;
use std::fmt::Write;
use test_lines::{Trouble, Words, number};

/// The place of the map of a block that a word numbers.
fn map_place(blocks: &[Bytes], word: &str) -> Result<u16, Trouble> {
    let number = number(word)?;
    match blocks.get(number as usize) {
        Some(block) if block.len() >= 2 => Ok(u16_at(block.as_slice(), 0)),
        _ => Err(Trouble::Place),
    }
}

/// Adds how many blocks there are, and the places of the maps of some.
fn say_maps(text: &mut String, blocks: &[Bytes], words: &str) -> Result<(), Trouble> {
    say_number(text, blocks.len())?;
    for word in words.split(' ') {
        let place = map_place(blocks, word)?;
        write!(text, " {place}")?;
    }
    Ok(())
}

/// How many blocks a heap has, and the places of the maps of some.
pub fn ask_maps(alloc: Global, text: &mut String, words: &mut Words) -> Result<(), Trouble> {
    let numbers = words.part().rest();
    let blocks = heap(alloc, words)?;
    say_maps(text, blocks.as_slice(), numbers)
}

/// Adds the client of a heap, and its root as a client sees it.
fn say_root(text: &mut String, view: &HeapView, words: &mut Words) -> Result<(), Trouble> {
    let client = view.client();
    write!(text, "{client:x} ")?;
    match view.root_for(words.byte()?) {
        Some(root) => Ok(write!(text, "{root:x}")?),
        None => say(text, "none"),
    }
}

/// The id of an item, which may be the `root`.
pub fn item_id(view: &HeapView, word: &str) -> Result<u32, Trouble> {
    match word {
        "root" => view.root_for(view.client()).ok_or(Trouble::Name),
        word => id(word),
    }
}

/// Adds an item, or its length.
fn say_item(text: &mut String, item: Option<&[u8]>, is_length: bool) -> Result<(), Trouble> {
    match item {
        Some(item) if is_length => say_number(text, item.len()),
        Some(item) => say_bytes(text, item),
        None => say(text, "none"),
    }
}

/// Adds items, or their lengths.
fn say_items(
    text: &mut String,
    view: &HeapView,
    words: &str,
    are_lengths: bool,
) -> Result<(), Trouble> {
    for word in words.split(' ') {
        let hid = item_id(view, word)?;
        part(text)?;
        say_item(text, view.item(hid), are_lengths)?;
    }
    Ok(())
}

/// Adds what words ask of blocks, if they are a heap.
fn say_answer(
    alloc: Global,
    text: &mut String,
    blocks: &[Bytes],
    kind: &str,
    words: &mut Words,
) -> Result<(), Trouble> {
    let Ok(view) = HeapView::read(blocks) else {
        return say(text, "no heap");
    };
    match kind {
        "root" => say_root(text, &view, words),
        "items" => say_items(text, &view, words.rest(), false),
        "lengths" => say_items(text, &view, words.rest(), true),
        "tree" => say_tree(alloc, text, &view, words),
        _ => say_entry(text, &view, words),
    }
}

/// What the first part of a row asks of the heap behind it.
pub fn answer(
    alloc: Global,
    text: &mut String,
    kind: &str,
    words: &mut Words,
) -> Result<(), Trouble> {
    let mut asked = words.part();
    let blocks = heap(alloc, words)?;
    say_answer(alloc, text, blocks.as_slice(), kind, &mut asked)
}
