//! The blocks that list subnodes ([MS-PST] 2.2.2.8.3.3.1 and 2.2.2.8.3.3.2).
ghost use Rattle.std.specs.Prelude.{◌≡◌, ◌≤◌, ◌+◌, ◌%◌, ◌^◌, true, length, IfOk};
ghost use Rattle.pst_base.specs.Fields.{number_at};
ghost use Rattle.subnode_tree.specs.Subnodes.{is_laid, is_leaf, is_inner, entry_at, entries_of, listed_at, listed_of};

use pst_base::{Bid, Nid, u8_at, u16_at, u64_at};
use std::alloc::{AllocError, Global};

/// A subnode: the level at which it stands, from 1 to 8, its NID, the block of its data, and that of its own subnodes. A block of 0 is none.
#[derive(Clone, Copy, Debug, PartialEq, Eq)]
pub(crate) struct SubEntry {
    pub(crate) level: u8,
    pub(crate) nid: Nid,
    pub(crate) content: Bid,
    pub(crate) subnodes: Bid,
}

/// A block of level 0 that one of level 1 lists, and a NID that none in it is below.
#[derive(Clone, Copy, Debug, PartialEq, Eq)]
pub(crate) struct Listed {
    pub(crate) nid: Nid,
    pub(crate) block: Bid,
}

/// Whether a block is of this level, with at most so many entries of so many bytes, and nothing after them.
#[tactic(auto, unfolding(crate::specs::Subnodes::is_laid))]
fn is_laid(b: &[u8], level: u8, most: u16, size: usize) -> bool
    requires { size ≤ 24 }
    ensures { result ≡ is_laid level most size b.now }
{
    b.len() >= 8
        && u8_at(b, 0) == 2
        && u8_at(b, 1) == level
        && u16_at(b, 2) <= most
        && b.len() == 8 + size * usize::from(u16_at(b, 2))
}

/// Whether a block is of level 0.
pub(crate) fn is_leaf(b: &[u8]) -> bool
    ensures { result ≡ is_leaf b.now }
{
    is_laid(b, 0, 340, 24)
}

/// Whether a block is of level 1.
pub(crate) fn is_inner(b: &[u8]) -> bool
    ensures { result ≡ is_inner b.now }
{
    is_laid(b, 1, 510, 16)
}

/// The low 32 bits of the 8 bytes of a NID.
fn nid_at(b: &[u8], at: usize) -> Nid
    requires { at + 8 ≤ length b.now }
    ensures { result.bits ≡ number_at 8 at b.now % 2 ^ 32 }
{
    Nid {
        bits: (u64_at(b, at) % 0x1_0000_0000) as u32,
    }
}

/// The entry at a place of a block of level 0.
#[tactic(auto, unfolding(crate::specs::Subnodes::entry_at))]
fn entry_at(b: &[u8], level: u8, at: usize) -> SubEntry
    requires { at + 24 ≤ length b.now }
    ensures { result ≡ entry_at level at b.now }
{
    SubEntry {
        level,
        nid: nid_at(b, at),
        content: Bid {
            bits: u64_at(b, at + 8),
        },
        subnodes: Bid {
            bits: u64_at(b, at + 16),
        },
    }
}

/// The entry at a place of a block of level 1.
#[tactic(auto, unfolding(crate::specs::Subnodes::listed_at))]
fn listed_at(b: &[u8], at: usize) -> Listed
    requires { at + 16 ≤ length b.now }
    ensures { result ≡ listed_at at b.now }
{
    Listed {
        nid: nid_at(b, at),
        block: Bid {
            bits: u64_at(b, at + 8),
        },
    }
}

/// The subnodes that a block of level 0 lists, each at this level.
pub(crate) fn entries(alloc: Global, b: &[u8], level: u8) -> Result<Vec<SubEntry>, AllocError>
    requires { is_leaf b.now ≡ true }
    ensures { IfOk result (λ entries. entries.items ≡ entries_of level b.now) }
{
    let count = usize::from(u16_at(b, 2));
    let mut entries = Vec::with_capacity(alloc, count)?;
    for i in 0..count {
        entries.push(entry_at(b, level, 8 + 24 * i))?;
    }
    Ok(entries)
}

/// The blocks that a block of level 1 lists.
pub(crate) fn names(alloc: Global, b: &[u8]) -> Result<Vec<Listed>, AllocError>
    requires { is_inner b.now ≡ true }
    ensures { IfOk result (λ listed. listed.items ≡ listed_of b.now) }
{
    let count = usize::from(u16_at(b, 2));
    let mut listed = Vec::with_capacity(alloc, count)?;
    for i in 0..count {
        listed.push(listed_at(b, 8 + 16 * i))?;
    }
    Ok(listed)
}
