//! How many pages the edits of small trees make, and what is found in one.
ghost use Rattle.std.specs.Prelude.{◌≡◌};

use btree_pages::{BlockEntry, Entry, NodeEntry, write_leaf};
use pst_base::{Bid, Bref, MemOr, Nid, SourceStop};
use std::alloc::{AllocError, Global};
use test_lines::{Trouble, Words, hex_number};
use tree_change::change;
use tree_edit::{Child, PageSource, Plan, PlanPage, are_edits, look_up};

const ROOT: Bref = Bref {
    bid: Bid { bits: 1 },
    ib: 0x4c00,
};

/// A source in which each id names the same page.
#[derive(Drop)]
struct OnePage {
    body: [u8; 496],
}

impl PageSource for OnePage {
    ghost use Rattle.std.specs.Prelude.{◌≡◌, Some};
    ghost use Rattle.pst_base.specs.declared.ids.Bref.{Bref};

    ghost view = { λ s. record { holds = λ find. (at : Bref) → find at ≡ Some s.body; fails = 0; changes = 0; since = λ first. Unit {0} } };

    fn page(&mut self, _at: Bref) -> Result<[u8; 496], MemOr<SourceStop>> {
        Ok(self.body)
    }
}

/// The block with a number.
pub(crate) fn block(n: u32) -> BlockEntry {
    BlockEntry {
        at: Bref {
            bid: Bid {
                bits: 4 * u64::from(n),
            },
            ib: 64 * u64::from(n),
        },
        cb: 1,
        refs: 2,
    }
}

fn node(n: u32) -> NodeEntry
    ensures { result.nid.bits ≡ n }
{
    NodeEntry {
        nid: Nid { bits: n },
        content: Bid { bits: 4 },
        subnodes: Bid { bits: 0 },
        parent: Nid { bits: 0x122 },
    }
}

pub(crate) type Edits<E> = Vec<(u64, Option<E>)>;

/// Edits that put blocks with the numbers from 1 on.
pub(crate) fn blocks(alloc: Global, count: u32) -> Result<Edits<BlockEntry>, AllocError> {
    let mut out = Vec::new(alloc);
    for n in 0..count {
        let entry = block(n + 1);
        out.push((entry.key(), Some(entry)))?;
    }
    Ok(out)
}

/// Edits that put nodes with the numbers from 1 on.
fn nodes(alloc: Global, count: u32) -> Result<Edits<NodeEntry>, AllocError> {
    let mut out = Vec::new(alloc);
    for n in 0..count {
        let entry = node(n + 1);
        out.push((entry.key(), Some(entry)))?;
    }
    Ok(out)
}

/// The level of a plan's root, where that is new.
pub(crate) fn level_of<E: Entry>(plan: &Plan<E>) -> Option<u8> {
    match plan.root {
        Child::Old(_) => None,
        Child::New(i) => match plan.pages.get(i) {
            Some(PlanPage::Leaf(_)) => Some(0),
            Some(PlanPage::Inner { level, .. }) => Some(*level),
            None => None,
        },
    }
}

/// What edits make of a tree that is one leaf.
fn planned<E: Entry>(
    alloc: Global,
    leaf: [u8; 496],
    edits: &[(u64, Option<E>)],
) -> Result<Plan<E>, Trouble> {
    if !are_edits(edits) {
        return Err(Trouble::Spelling);
    }
    let mut source = OnePage { body: leaf };
    match change(alloc, ROOT, edits, &mut source) {
        Ok(plan) => Ok(plan),
        Err(MemOr::Memory) => Err(Trouble::Memory),
        Err(MemOr::Refused(_)) => Err(Trouble::Place),
    }
}

/// Numbers of new and of freed pages, and the root's level where that is new.
fn counts(
    alloc: Global,
    pages: usize,
    freed: usize,
    level: Option<u8>,
) -> Result<String, AllocError> {
    match level {
        Some(level) => format!(in alloc; "{pages} {freed} level {level}"),
        None => format!(in alloc; "{pages} {freed} same"),
    }
}

/// How many new pages edits of an empty tree make, how many they free, and the root's level where that is new.
fn counted<E: Entry>(alloc: Global, edits: &[(u64, Option<E>)]) -> Result<String, Trouble> {
    match planned(alloc, write_leaf::<E>(&[]), edits) {
        Ok(plan) => plan_text(alloc, &plan),
        Err(trouble) => Err(trouble),
    }
}

/// The counts of a plan.
fn plan_text<E: Entry>(alloc: Global, plan: &Plan<E>) -> Result<String, Trouble> {
    let (pages, freed) = (plan.pages.len(), plan.freed.len());
    Ok(counts(alloc, pages, freed, level_of(plan))?)
}

/// What it makes of an empty tree to put so many blocks or nodes.
pub fn ask_change(alloc: Global, words: &mut Words) -> Result<String, Trouble> {
    let sort = words.word()?;
    let count = words.id()?;
    match sort {
        "blocks" => {
            let edits = blocks(alloc, count)?;
            counted(alloc, edits.as_slice())
        }
        "nodes" => {
            let edits = nodes(alloc, count)?;
            counted(alloc, edits.as_slice())
        }
        _ => Err(Trouble::Spelling),
    }
}

/// The leaf of the nodes 2, 4 and 6.
fn leaf() -> [u8; 496] {
    write_leaf(&[node(2), node(4), node(6)])
}

/// The edit that a word tells: `KEY:NODE` puts a node at a key, and `-KEY` removes one.
fn edit(word: &str) -> Result<(u64, Option<NodeEntry>), Trouble> {
    match (word.strip_prefix('-'), word.split_once(':')) {
        (Some(key), _) => Ok((hex_number(key)?, None)),
        (None, Some((key, id))) => Ok((hex_number(key)?, Some(spelled(id)?))),
        (None, None) => Err(Trouble::Spelling),
    }
}

/// The node with the number that a word spells.
fn spelled(id: &str) -> Result<NodeEntry, Trouble> {
    match u32::try_from(hex_number(id)?) {
        Ok(bits) => Ok(node(bits)),
        Err(_) => Err(Trouble::Spelling),
    }
}

/// The edits that words tell.
fn edits(alloc: Global, words: &str) -> Result<Edits<NodeEntry>, Trouble> {
    let mut edits = Vec::new(alloc);
    for word in words.split(' ') {
        edits.push(edit(word)?)?;
    }
    Ok(edits)
}

/// How many entries the first new leaf has after edits of a leaf, and its first key.
pub fn ask_edit(alloc: Global, words: &mut Words) -> Result<String, Trouble> {
    let edits = edits(alloc, words.rest())?;
    edited(alloc, edits.as_slice())
}

/// What edits make of a leaf, or that they are none.
fn edited(alloc: Global, edits: &[(u64, Option<NodeEntry>)]) -> Result<String, Trouble> {
    if !are_edits(edits) {
        return Ok(String::from_str(alloc, "no edits")?);
    }
    let plan = planned(alloc, leaf(), edits)?;
    match plan.pages.first() {
        Some(PlanPage::Leaf(entries)) => Ok(leaf_text(alloc, entries.as_slice())?),
        _ => Err(Trouble::Place),
    }
}

/// How many entries a leaf has, and its first key.
fn leaf_text(alloc: Global, entries: &[NodeEntry]) -> Result<String, AllocError> {
    let count = entries.len();
    match entries.first() {
        Some(entry) => {
            let key = entry.key();
            format!(in alloc; "{count} from {key:x}")
        }
        None => format!(in alloc; "{count}"),
    }
}

/// Whether a key is found in the leaf, as the entry of that node.
pub fn ask_look(alloc: Global, words: &mut Words) -> Result<String, Trouble> {
    let bits = words.id()?;
    let mut source = OnePage { body: leaf() };
    let word = match look_up::<NodeEntry, OnePage>(ROOT, u64::from(bits), &mut source) {
        Ok(Some(entry)) => if entry == node(bits) {
            "found"
        } else {
            "another"
        },
        Ok(None) => "none",
        Err(_) => return Err(Trouble::Place),
    };
    Ok(String::from_str(alloc, word)?)
}
