//! Pages of trees.
use crate::frames::{array, bref, bytes_text};
use btree_pages::{BlockEntry, Entry, Inner, NodeEntry, TreePage, write_inner, write_leaf};
use pst_base::{Bid, Nid};
use std::alloc::{AllocError, Global};
use test_lines::{Trouble, Words};

fn short(words: &mut Words) -> Result<u16, Trouble> {
    u16::try_from(words.number()?).ok().ok_or(Trouble::Spelling)
}

fn block(words: &mut Words) -> Result<BlockEntry, Trouble> {
    Ok(BlockEntry {
        at: bref(words)?,
        cb: short(words)?,
        refs: short(words)?,
    })
}

fn node(words: &mut Words) -> Result<NodeEntry, Trouble> {
    Ok(NodeEntry {
        nid: Nid { bits: words.id()? },
        content: Bid { bits: words.hex()? },
        subnodes: Bid { bits: words.hex()? },
        parent: Nid { bits: words.id()? },
    })
}

/// The leaf with one entry.
pub fn ask_leaf(alloc: Global, words: &mut Words) -> Result<String, Trouble> {
    match words.word()? {
        "block" => bytes_text(alloc, &write_leaf(&[block(words)?])),
        "node" => bytes_text(alloc, &write_leaf(&[node(words)?])),
        _ => Err(Trouble::Spelling),
    }
}

/// The inner page of a level with one entry.
pub fn ask_inner(alloc: Global, words: &mut Words) -> Result<String, Trouble> {
    let level = words.byte()?;
    if level < 1 || level > 7 {
        return Err(Trouble::Spelling);
    }
    let child = Inner {
        key: words.hex()?,
        page: bref(words)?,
    };
    bytes_text(alloc, &write_inner::<NodeEntry>(level, &[child]))
}

/// The level of a page, and the place of an entry in it.
fn place_text(alloc: Global, level: u8, place: Option<usize>) -> Result<String, AllocError> {
    match place {
        Some(i) => format!(in alloc; "level {level} entry {i}"),
        None => format!(in alloc; "level {level} none"),
    }
}

/// The level of a page, and the place of the entry that a key leads to, or the fault.
fn find<E: Entry>(alloc: Global, page: &[u8; 496], key: u64) -> Result<String, AllocError> {
    match TreePage::<E>::read(page) {
        Ok(page) => place_text(alloc, page.level(), page.find(key)),
        Err(fault) => format!(in alloc; "{fault:?}"),
    }
}

/// The level of a page of blocks or nodes, and the place of the entry that a key leads to.
pub fn ask_find(alloc: Global, words: &mut Words) -> Result<String, Trouble> {
    let sort = words.word()?;
    let key = words.hex()?;
    let page = array::<496>(alloc, words)?;
    match sort {
        "blocks" => Ok(find::<BlockEntry>(alloc, &page, key)?),
        "nodes" => Ok(find::<NodeEntry>(alloc, &page, key)?),
        _ => Err(Trouble::Spelling),
    }
}
