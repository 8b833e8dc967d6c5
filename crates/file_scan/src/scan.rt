//! A scan of a whole file.
ghost use Rattle.std.specs.Prelude.{◌≡◌, ◌≤◌, ◌*◌, length, Ok, Err, IfOk, IfErr};
ghost use Rattle.pst_outside.specs.Calls.{Rose, Untouched};
ghost use Rattle.file_layout.specs.Nodes.{NodeMap, Lays, LARGEST};
ghost use Rattle.file_layout.specs.Opening.{opening};
ghost use Rattle.file_layout.specs.Trees.{file_of};
ghost use Rattle.file_scan.specs.Found.{IsFound, LaysBlocks};
ghost use Rattle.file_scan.specs.Lines.{lines_of};
ghost use Rattle.file_scan.specs.Parts.{AllPlaced, LaysThese, StopsTrees};
ghost use Rattle.file_scan.specs.Scan.{Scans, StopsScan};

use crate::blocks::{check_eof, read_blocks};
use crate::next::{next_block, next_page};
use crate::nodes::{NodeLine, node_lines};
use crate::places::used_slots;
use crate::refs::count_refs;
use alloc_map::Slots;
use btree_pages::{BlockEntry, NodeEntry};
use file_layout::{OpenStop, open_header, read_tree};
use pst_base::Bref;
use pst_header::Header;
use pst_outside::Outside;
use ref_counts::RefCounts;
use std::alloc::Global;

/// The kind of the node tree's pages.
const NODE_TREE: u8 = 0x81;

/// What a scan found in a file, for a keeper of it.
#[derive(Drop)]
pub struct FoundFile {
    /// The header that counts.
    pub header: Header,
    /// The slots of all 8192 regions that a file may have, and on which of them a block, a page of a tree or a fixed page stands.
    pub slots: Slots,
    /// How many pages both trees have.
    pub pages: u64,
    /// The number of the next block.
    pub next_block: u64,
    /// The number of the next page.
    pub next_page: u64,
    /// How often the nodes reach each block.
    pub refs: RefCounts,
}

/// What a scan found.
#[derive(Drop)]
struct Scanned {
    header: Header,
    /// The entries of the block tree.
    blocks: Vec<BlockEntry>,
    /// The entries of the node tree.
    nodes: Vec<NodeEntry>,
    /// The pages of the block tree, and then those of the node tree.
    pages: Vec<Bref>,
    /// What is told of the nodes.
    lines: Vec<NodeLine>,
    /// The used slots.
    slots: Slots,
}

/// The nodes of a file, ascending by id, with the sizes of what each leads to. It reads the pages of both trees, each block once and those that name or list others once more, and writes nothing.
///
/// `Refused` names the first thing that is wrong: with the header, the file's length, the block tree's pages in the order of their keys, with the blocks of each leaf before the next page, the node tree's pages, each node's data and subnodes, and last the places of all pages and blocks. `Fault` comes only where the disk failed; `Changed` only where a block fails a check that it passed, never over a world that tells.
pub fn scan_nodes<W: Outside>(alloc: Global, w: &mut W) -> Result<Vec<NodeLine>, OpenStop>
    ensures lays { IfOk result (λ lines. (W.view w.new).tells → Scans (W.view w.new).here lines.items) }
    ensures only { IfOk result (λ lines. (W.view w.new).tells → (header : Header) (nodes : NodeMap) → opening (W.view w.new).here.main (W.view w.new).here.side ≡ Ok header → Lays header (file_of (W.view w.new).here) nodes → lines.items ≡ lines_of nodes) }
    ensures refused { IfErr result (λ stop. (W.view w.new).tells → StopsScan stop (W.view w.new).here) }
    ensures fault { result ≡ Err OpenStop.Fault → Rose (W.view w.old).disk_faults (W.view w.new).disk_faults }
    ensures same { Untouched (W.view w.old) (W.view w.new) }
{
    let scanned = scan(alloc, w)?;
    Ok(scanned.lines)
}

/// What a keeper of a file needs of it, found by the same scan as `scan_nodes` does, with the same stops. Blocks that name or list others are read once more, for the references. Both next numbers stay at the greatest of 64 bits, where a file's ids leave none behind them.
pub fn scan_file<W: Outside>(alloc: Global, w: &mut W) -> Result<FoundFile, OpenStop>
    ensures found { IfOk result (λ found. (W.view w.new).tells → IsFound (W.view w.new).here found) }
    ensures refused { IfErr result (λ stop. (W.view w.new).tells → StopsScan stop (W.view w.new).here) }
    ensures fault { result ≡ Err OpenStop.Fault → Rose (W.view w.old).disk_faults (W.view w.new).disk_faults }
    ensures same { Untouched (W.view w.old) (W.view w.new) }
{
    let scanned = scan(alloc, w)?;
    let refs = count_refs(
        alloc,
        w,
        scanned.header.eof,
        scanned.blocks.as_slice(),
        scanned.nodes.as_slice(),
    )?;
    Ok(FoundFile {
        header: scanned.header,
        pages: scanned.pages.len() as u64,
        next_block: next_block(&scanned.header, scanned.blocks.as_slice()),
        next_page: next_page(&scanned.header, scanned.pages.as_slice()),
        slots: scanned.slots,
        refs,
    })
}

/// What is found of a file.
fn scan<W: Outside>(alloc: Global, w: &mut W) -> Result<Scanned, OpenStop>
    ensures opened { IfOk result (λ scanned. (W.view w.new).tells → opening (W.view w.new).here.main (W.view w.new).here.side ≡ Ok scanned.header) }
    ensures lays { IfOk result (λ scanned. (W.view w.new).tells → LaysThese scanned.header (file_of (W.view w.new).here) scanned.blocks.items scanned.nodes.items scanned.pages.items scanned.lines.items scanned.slots) }
    ensures whole { IfOk result (λ scanned. (W.view w.new).tells → scanned.header.eof ≤ length (W.view w.new).here.main) }
    ensures size { IfOk result (λ scanned. length scanned.slots ≡ 3968 * 8192) }
    ensures refused { IfErr result (λ stop. (W.view w.new).tells → StopsScan stop (W.view w.new).here) }
    ensures fault { result ≡ Err OpenStop.Fault → Rose (W.view w.old).disk_faults (W.view w.new).disk_faults }
    ensures same { Untouched (W.view w.old) (W.view w.new) }
{
    let opened = open_header(w)?;
    check_eof(w, opened.header.eof)?;
    scan_trees(alloc, w, &opened.header)
}

/// The entries of the block tree of a file with a header that the caller has read, found by the same scan from the header's end on, with the same stops.
pub fn scan_blocks<W: Outside>(
    alloc: Global,
    w: &mut W,
    header: &Header,
) -> Result<Vec<BlockEntry>, OpenStop>
    requires { (W.view w.old).tells → 564 ≤ length (W.view w.old).here.main }
    ensures lays { IfOk result (λ blocks. (W.view w.new).tells → LaysBlocks header.now (file_of (W.view w.new).here) blocks.items) }
    ensures placed { IfOk result (λ blocks. AllPlaced header.now.eof blocks.items) }
    ensures whole { IfOk result (λ blocks. (W.view w.new).tells → header.now.eof ≤ length (W.view w.new).here.main) }
    ensures refused { IfErr result (λ stop. (W.view w.new).tells → StopsTrees stop header.now (file_of (W.view w.new).here)) }
    ensures fault { result ≡ Err OpenStop.Fault → Rose (W.view w.old).disk_faults (W.view w.new).disk_faults }
    ensures same { Untouched (W.view w.old) (W.view w.new) }
{
    check_eof(w, header.eof)?;
    let scanned = scan_trees(alloc, w, header)?;
    Ok(scanned.blocks)
}

/// What is found of a file whose header is known and whose end is in the file.
fn scan_trees<W: Outside>(alloc: Global, w: &mut W, header: &Header) -> Result<Scanned, OpenStop>
    requires whole { (W.view w.old).tells → header.now.eof ≤ length (W.view w.old).here.main }
    requires small { header.now.eof ≤ LARGEST }
    ensures lays { IfOk result (λ scanned. (W.view w.new).tells → LaysThese header.now (file_of (W.view w.new).here) scanned.blocks.items scanned.nodes.items scanned.pages.items scanned.lines.items scanned.slots) }
    ensures header { IfOk result (λ scanned. scanned.header ≡ header.now) }
    ensures size { IfOk result (λ scanned. length scanned.slots ≡ 3968 * 8192) }
    ensures placed { IfOk result (λ scanned. AllPlaced header.now.eof scanned.blocks.items) }
    ensures refused { IfErr result (λ stop. (W.view w.new).tells → StopsTrees stop header.now (file_of (W.view w.new).here)) }
    ensures fault { result ≡ Err OpenStop.Fault → Rose (W.view w.old).disk_faults (W.view w.new).disk_faults }
    ensures same { Untouched (W.view w.old) (W.view w.new) }
{
    let eof = header.eof;
    let (blocks, mut pages) = read_blocks(alloc, w, eof, header.bbt)?;
    let mut nodes = Vec::new(alloc);
    read_tree(w, NODE_TREE, eof, header.nbt, &mut nodes, &mut pages)?;
    let lines = node_lines(alloc, w, eof, blocks.as_slice(), nodes.as_slice())?;
    let slots = used_slots(alloc, eof, pages.as_slice(), blocks.as_slice())?;
    Ok(Scanned {
        header: *header,
        blocks,
        nodes,
        pages,
        lines,
        slots,
    })
}
