//! The blocks of a file.
ghost use Rattle.std.specs.Prelude.{◌≡◌, ◌≤◌, Err, length, IfOk, OnOk, IfErr};
ghost use Rattle.pst_outside.specs.Calls.{Rose, Untouched};
ghost use Rattle.file_blocks.specs.Blocks.{file_of, AllStand};
ghost use Rattle.file_layout.specs.Trees.{AllPages};
ghost use Rattle.file_scan.specs.Parts.{StopsEof, StopsAtBlock, AllPlaced, HasBlocks, StopsBlocks};
ghost use Rattle.file_layout.specs.Nodes.{LARGEST};

use crate::runs::check_run;
use btree_pages::BlockEntry;
use file_layout::{OpenRefusal, OpenStop, read_tree};
use pst_base::Bref;
use pst_outside::{Outside, Part};
use std::alloc::Global;

/// The kind of the block tree's pages.
const BLOCK_TREE: u8 = 0x80;

/// The most bytes that a file may have: those before the first region, and 8192 regions.
const LARGEST: u64 = 0x4400 + 253_952 * 8192;

/// The most bytes that a run has.
const BUFFER: usize = 65_536;

/// Refuses a file that is shorter than its header says, or whose header names an end past the last region that may be.
pub(crate) fn check_eof<W: Outside>(w: &mut W, eof: u64) -> Result<(), OpenStop>
    ensures whole { OnOk result ((W.view w.new).tells → eof ≤ length (W.view w.new).here.main) }
    ensures small { OnOk result (eof ≤ LARGEST) }
    ensures refused { IfErr result (λ stop. (W.view w.new).tells → StopsEof stop (length (W.view w.new).here.main) eof) }
    ensures fault { result ≡ Err OpenStop.Fault → Rose (W.view w.old).disk_faults (W.view w.new).disk_faults }
    ensures same { Untouched (W.view w.old) (W.view w.new) }
{
    let len = w.len(Part::Main)?;
    if eof > len {
        return Err(OpenStop::Refused(OpenRefusal::Truncated { len, eof }));
    }
    if eof > LARGEST {
        return Err(OpenStop::Refused(OpenRefusal::Large { eof }));
    }
    Ok(())
}

/// Checks that each entry of the block tree names a whole block. Blocks that stand near one another are read at once.
pub(crate) fn check_blocks<W: Outside>(
    w: &mut W,
    eof: u64,
    blocks: &[BlockEntry],
) -> Result<(), OpenStop>
    requires { (W.view w.old).tells → eof ≤ length (W.view w.old).here.main }
    ensures stand { OnOk result ((W.view w.new).tells → AllStand (file_of (W.view w.new).here) eof blocks.now) }
    ensures placed { OnOk result (AllPlaced eof blocks.now) }
    ensures refused { IfErr result (λ stop. (W.view w.new).tells → StopsAtBlock stop (file_of (W.view w.new).here) eof blocks.now) }
    ensures fault { result ≡ Err OpenStop.Fault → Rose (W.view w.old).disk_faults (W.view w.new).disk_faults }
    ensures same { Untouched (W.view w.old) (W.view w.new) }
{
    let mut buffer = [0; BUFFER];
    let mut done = 0;
    while done < blocks.len() {
        done += check_run(w, eof, &blocks[done..], &mut buffer)?;
    }
    Ok(())
}

/// The entries of the block tree of a root, each of which names a whole block, and the tree's pages. A block is looked at when its leaf is reached, so before the pages behind that leaf.
pub(crate) fn read_blocks<W: Outside>(
    alloc: Global,
    w: &mut W,
    eof: u64,
    root: Bref,
) -> Result<(Vec<BlockEntry>, Vec<Bref>), OpenStop>
    requires { (W.view w.old).tells → eof ≤ length (W.view w.old).here.main }
    ensures blocks { IfOk result (λ read. (W.view w.new).tells → HasBlocks (file_of (W.view w.new).here) eof root read.0.items read.1.items) }
    ensures placed { IfOk result (λ read. AllPlaced eof read.0.items) }
    ensures pages { IfOk result (λ read. AllPages eof read.1.items) }
    ensures refused { IfErr result (λ stop. (W.view w.new).tells → StopsBlocks stop (file_of (W.view w.new).here) eof root) }
    ensures fault { result ≡ Err OpenStop.Fault → Rose (W.view w.old).disk_faults (W.view w.new).disk_faults }
    ensures same { Untouched (W.view w.old) (W.view w.new) }
{
    let mut blocks = Vec::new(alloc);
    let mut pages = Vec::new(alloc);
    match read_tree(w, BLOCK_TREE, eof, root, &mut blocks, &mut pages) {
        Ok(()) => {}
        Err(OpenStop::Refused(page)) => {
            check_blocks(w, eof, blocks.as_slice())?;
            return Err(OpenStop::Refused(page));
        }
        Err(stop) => return Err(stop),
    }
    check_blocks(w, eof, blocks.as_slice())?;
    Ok((blocks, pages))
}
