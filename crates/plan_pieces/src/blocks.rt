//! New blocks, sealed for their places.
ghost use Rattle.std.specs.Prelude.{◌≡◌, ◌≤◌, ℕ, All, IfOk, length, map};
ghost use Rattle.alloc_map.specs.Slots.{IsLaid, slots_in};
ghost use Rattle.btree_pages.specs.declared.entry.BlockEntry.{BlockEntry as BlockEntries};
ghost use Rattle.data_tree.specs.Plan.{AreSmall};
ghost use Rattle.file_layout.specs.Nodes.{place_of};
ghost use Rattle.node_layout.specs.Pieces.{piece_place};
ghost use Rattle.node_layout.specs.Sealed.{AreSealed, IsSealed};
ghost use Rattle.plan_pieces.specs.Blocks.{slots_of};

use block_frame::{disk_size, seal};
use btree_pages::BlockEntry;
use lays_kept::Piece;
use pst_base::{Bid, Bref, Bytes, Place};
use std::alloc::{AllocError, Global};

/// How many references a new block's entry counts: one more than the one place that names it ([MS-PST] 2.2.2.7.7.3).
const REFS: u16 = 2;

/// How many slots of 64 bytes each block takes with its frame.
pub fn slots_of_blocks(alloc: Global, blocks: &[(Bid, Bytes)]) -> Result<Vec<u8>, AllocError>
    requires small { AreSmall blocks.now }
    ensures sizes { IfOk result (λ sizes. sizes.items ≡ map slots_of blocks.now) }
    ensures low { IfOk result (λ sizes. All (λ n. 1 ≤ n) sizes.items) }
    ensures high { IfOk result (λ sizes. All (λ n. n ≤ 128) sizes.items) }
    ensures count { IfOk result (λ sizes. length sizes.items ≡ length blocks.now) }
{
    let mut sizes = Vec::new(alloc);
    for block in blocks {
        sizes.push((disk_size(block.1.len() as u16) / 64) as u8)?;
    }
    Ok(sizes)
}

/// New blocks, sealed for their places, with their entries in the block tree, which count one place that names each.
pub fn seal_blocks(
    alloc: Global,
    blocks: &[(Bid, Bytes)],
    places: &[Place],
) -> Result<(Vec<BlockEntry>, Vec<Piece>), AllocError>
    requires small { AreSmall blocks.now }
    requires sized { map slots_in places.now ≡ map slots_of blocks.now }
    requires laid { (regions : ℕ) × All (IsLaid regions) places.now }
    ensures sealed { IfOk result (λ r. AreSealed blocks.now r.0.items r.1.items) }
    ensures placed { IfOk result (λ r. map piece_place r.1.items ≡ places.now) }
    ensures entries { IfOk result (λ r. map place_of r.0.items ≡ places.now) }
    ensures refs { IfOk result (λ r. All (λ (e : BlockEntries). e.refs ≡ 2) r.0.items) }
{
    let mut entries = Vec::new(alloc);
    let mut pieces = Vec::new(alloc);
    for i in 0..blocks.len() {
        let (entry, piece) = seal_block(alloc, &blocks[i], places[i].ib)?;
        entries.push(entry)?;
        pieces.push(piece)?;
    }
    Ok((entries, pieces))
}

/// A new block, sealed for its place, with its entry.
fn seal_block(
    alloc: Global,
    block: &(Bid, Bytes),
    ib: u64,
) -> Result<(BlockEntry, Piece), AllocError>
    requires { length block.now.1 ≤ 8176 }
    ensures sealed { IfOk result (λ r. IsSealed block.now r.0 r.1) }
    ensures place { IfOk result (λ r. r.0.at.ib ≡ ib) }
    ensures refs { IfOk result (λ r. r.0.refs ≡ 2) }
{
    let at = Bref { bid: block.0, ib };
    let bytes = seal(alloc, block.1.as_slice(), at)?;
    let entry = BlockEntry {
        at,
        cb: block.1.len() as u16,
        refs: REFS,
    };
    Ok((entry, Piece { at: ib, bytes }))
}
