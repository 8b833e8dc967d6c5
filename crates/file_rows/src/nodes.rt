//! Nodes and changes, as words spell them.
ghost use Rattle.std.specs.Prelude.{◌≡◌, IfOk};

use node_port::{Changes, Counts, NodeRec};
use pst_base::{Blocks, Bytes, Nid, Subs};
use std::alloc::{AllocError, Global};
use std::fmt::Write;
use test_lines::{Trouble, hex_number, push_bytes, read_bytes};

/// The most bytes of a data block ([MS-PST] 2.2.2.8.3.1).
const MOST: usize = 8176;

/// An id in hex.
pub fn nid(word: &str) -> Result<Nid, Trouble> {
    let number = hex_number(word)?;
    match u32::try_from(number) {
        Ok(bits) => Ok(Nid { bits }),
        Err(_) => Err(Trouble::Spelling),
    }
}

/// A node whose data is these bytes, in blocks of which all but the last are full.
fn node(alloc: Global, bytes: &[u8]) -> Result<NodeRec, AllocError> {
    let mut blocks = Blocks::new(alloc);
    for block in bytes.chunks(MOST) {
        blocks.push(Bytes::from_slice(alloc, block)?)?;
    }
    Ok(NodeRec {
        parent: Nid { bits: 0 },
        blocks,
        subs: Subs::new(alloc),
    })
}

/// One change: `NID=BYTES`, or `-NID`.
fn change(alloc: Global, word: &str) -> Result<(Nid, Option<NodeRec>), Trouble> {
    if let Some(gone) = word.strip_prefix('-') {
        return Ok((nid(gone)?, None));
    }
    let Some((id, bytes)) = word.split_once('=') else {
        return Err(Trouble::Spelling);
    };
    let bytes = read_bytes(alloc, bytes)?;
    Ok((nid(id)?, Some(node(alloc, bytes.as_slice())?)))
}

/// Changes, parted by semicolons, for which no room is asked beyond their own.
pub fn changes(alloc: Global, word: &str) -> Result<Changes, Trouble>
    ensures room { IfOk result (λ changes. changes.room ≡ 0) }
{
    let mut nodes = Vec::new(alloc);
    for piece in word.split(';') {
        nodes.push(change(alloc, piece)?)?;
    }
    Ok(Changes {
        nodes,
        counts: Counts { last: [0; 32] },
        room: 0,
    })
}

/// All data of a node.
fn data(alloc: Global, node: &NodeRec) -> Result<Vec<u8>, AllocError> {
    let mut bytes = Vec::new(alloc);
    for block in node.blocks.as_slice() {
        bytes.extend_from_slice(block.as_slice())?;
    }
    Ok(bytes)
}

/// Adds the data of a node, or that there is none.
pub fn push_node(
    alloc: Global,
    text: &mut String,
    node: &Option<NodeRec>,
) -> Result<(), AllocError> {
    match node {
        Some(node) => {
            let bytes = data(alloc, node)?;
            text.push(' ')?;
            push_bytes(text, bytes.as_slice())
        }
        None => text.push_str(" none"),
    }
}

/// Adds an id, or that there is none.
pub fn push_nid(text: &mut String, nid: Option<Nid>) -> Result<(), AllocError> {
    match nid {
        Some(nid) => write!(text, " {:x}", nid.bits),
        None => text.push_str(" none"),
    }
}
