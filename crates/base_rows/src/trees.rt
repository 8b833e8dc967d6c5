//! Trees of records in heaps.
use crate::heaps::item_id;
use crate::values::{say, say_bytes, say_number};
use bth_tree::{bth_find, bth_read};
use heap_on_node::HeapView;
use pst_base::MemOr;
use std::alloc::Global;
use test_lines::{Trouble, Words};

/// Adds how many records a tree has whose keys and entries have the lengths that words say.
pub fn say_tree(
    alloc: Global,
    text: &mut String,
    view: &HeapView,
    words: &mut Words,
) -> Result<(), Trouble> {
    let hid = item_id(view, words.word()?)?;
    let key_len = words.byte()?;
    let ent_len = words.byte()?;
    if key_len < 1 || key_len > 4 {
        return Err(Trouble::Spelling);
    }
    match bth_read(alloc, view, hid, key_len, ent_len) {
        Ok(records) => say_number(text, records.len()),
        Err(MemOr::Refused(_)) => say(text, "no tree"),
        Err(MemOr::Memory) => Err(Trouble::Memory),
    }
}

/// Adds the entry of a key in a tree.
pub fn say_entry(text: &mut String, view: &HeapView, words: &mut Words) -> Result<(), Trouble> {
    let hid = item_id(view, words.word()?)?;
    match bth_find(view, hid, words.id()?) {
        Ok(Some(entry)) => say_bytes(text, entry),
        Ok(None) => say(text, "none"),
        Err(_) => say(text, "no tree"),
    }
}
