//! Heaps that are made of items, or of the records of a tree.
ghost use Rattle.std.specs.Prelude.{◌≡◌, ◌≤◌, ◌<◌, ◌+◌, ◌^◌, true, length, IfOk, OnOk};
ghost use Rattle.bth_tree.specs.Making.{AreRecords, items_made};
ghost use Rattle.bth_tree.specs.Records.{within};

use crate::nodes::blocks;
use crate::values::part;
use bth_tree::bth_make;
use heap_on_node::HeapMaker;
use pst_base::{Blocks, Bytes};
use std::alloc::{AllocError, Global};
use std::fmt::Write;
use test_lines::{Trouble, Words};

/// Adds an item to a heap, and its id in hex to a text.
fn add(maker: &mut HeapMaker, text: &mut String, item: &[u8]) -> Result<(), Trouble>
    requires { length maker.old < 65536 }
    ensures { OnOk result (length maker.new ≤ length maker.old + 1) }
{
    if item.len() > 3580 {
        return Err(Trouble::Spelling);
    }
    let hid = maker.add(item)?;
    part(text)?;
    Ok(write!(text, "{hid:x}")?)
}

/// The heap of items, whose ids are added to a text.
fn filled(alloc: Global, text: &mut String, items: &[Bytes]) -> Result<HeapMaker, Trouble> {
    if items.len() > 65535 {
        return Err(Trouble::Spelling);
    }
    let mut maker = HeapMaker::new(alloc);
    for added in 0..items.len() {
        add(&mut maker, text, items[added].as_slice())?;
    }
    Ok(maker)
}

/// The ids of the items of a heap.
pub fn ask_ids(alloc: Global, text: &mut String, words: &mut Words) -> Result<(), Trouble> {
    let items = blocks(alloc, words.rest())?;
    match filled(alloc, text, items.as_slice()) {
        Ok(_) => Ok(()),
        Err(trouble) => Err(trouble),
    }
}

/// The blocks of a heap of a client whose root is an id, of items.
fn made_of(alloc: Global, client: u8, root: u32, items: &[Bytes]) -> Result<Blocks, Trouble> {
    let maker = filled(alloc, &mut String::new(alloc), items)?;
    Ok(maker.finish(client, root)?)
}

/// The blocks of the heap that a client, a root and items say.
fn of_items(alloc: Global, words: &mut Words) -> Result<Blocks, Trouble> {
    let client = words.byte()?;
    let root = words.id()?;
    let items = blocks(alloc, words.rest())?;
    made_of(alloc, client, root, items.as_slice())
}

/// Records of the keys from 0 on, each with an entry of 6 bytes.
fn records(alloc: Global, count: u32) -> Result<Vec<(u32, Bytes)>, AllocError>
    requires { count ≤ 65536 }
    ensures records { IfOk result (λ recs. AreRecords 2 6 recs.items) }
    ensures ascend { IfOk result (λ recs. within 0 (2 ^ 32) recs.items ≡ true) }
    ensures count { IfOk result (λ recs. length recs.items ≡ count) }
{
    let mut recs = Vec::new(alloc);
    for key in 0..count {
        recs.push((
            key,
            Bytes::from_slice(alloc, &[(key % 251) as u8, 1, 2, 3, 4, 5])?,
        ))?;
    }
    Ok(recs)
}

/// The blocks of a heap whose root is a tree of these records.
fn rooted(alloc: Global, recs: &[(u32, Bytes)]) -> Result<Blocks, Trouble>
    requires records { AreRecords 2 6 recs.now }
    requires ascend { within 0 (2 ^ 32) recs.now ≡ true }
    requires items { items_made 2 6 (length recs.now) < 60000 }
{
    let mut maker = HeapMaker::new(alloc);
    let hid = bth_make(alloc, &mut maker, 2, 6, recs)?;
    Ok(maker.finish(0xBC, hid)?)
}

/// The blocks of a heap whose root is a tree of so many records.
fn of_records(alloc: Global, count: u32) -> Result<Blocks, Trouble> {
    if count > 4096 {
        return Err(Trouble::Spelling);
    }
    let recs = records(alloc, count)?;
    rooted(alloc, recs.as_slice())
}

/// The blocks of the heap that words spell: by its bytes, by its items, or by how many records its tree has.
pub fn heap(alloc: Global, words: &mut Words) -> Result<Blocks, Trouble> {
    match words.word()? {
        "bytes" => blocks(alloc, words.rest()),
        "items" => of_items(alloc, words),
        "records" => of_records(alloc, words.id()?),
        _ => Err(Trouble::Spelling),
    }
}
