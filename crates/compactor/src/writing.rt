//! The copy, as it is planned, written part by part.
ghost use Rattle.std.specs.Prelude.{◌≡◌, ◌≤◌, ◌*◌, ◌-◌, ◌/◌, ◌^◌, [], length, IfErr, IfOk, OnOk, Err};
ghost use Rattle.pst_header.specs.Format.{IsWritable};
ghost use Rattle.pst_outside.specs.Calls.{Rose};
ghost use Rattle.copy_part.specs.Keeps.{IsStable, KeepsSource};
ghost use Rattle.copy_pieces.specs.Stops.{StopsCopy};
ghost use Rattle.file_blocks.specs.Blocks.{file_of};
ghost use Rattle.file_layout.specs.Nodes.{LARGEST};
ghost use Rattle.file_scan.specs.Parts.{AllShort};
ghost use Rattle.alloc_map.specs.Slots.{regions_of};
ghost use Rattle.alloc_map.specs.Standing.{IsCovered, occupied};
ghost use Rattle.compactor.specs.Layout.{layout_places};
ghost use Rattle.compactor.specs.Steps.{HasRegions, IsHeaderOf, IsReady, PutsAll, WritesCopy, layout_of};
ghost use Rattle.compactor.specs.Written.{AddsDense, AddsHeader, AddsParts};

use crate::placing::places_in;
use crate::planning::Plan;
use crate::source::Source;
use alloc_map::Slots;
use btree_pages::NodeEntry;
use copy_part::{put, settle};
use copy_pieces::{
    BLOCK_TREE, CompactStop, Made, NODE_TREE, copy_blocks, copy_header, put_fixed, used_slots,
};
use copy_trees::put_tree;
use page_frame::seal;
use pst_base::{Bid, Bref};
use pst_header::{Header, write};
use pst_outside::Outside;
use std::alloc::Global;

/// Where the first region begins.
const FIRST: u64 = 0x4400;

/// The length of a region, in bytes.
const REGION: u64 = 253_952;

/// Where older readers look for a page that lists other pages.
const DENSE: u64 = 0x4200;

/// The kind of that page.
const DENSE_LIST: u8 = 0x86;

/// Writes the blocks, and the pages of both trees.
fn put_parts<W: Outside>(
    alloc: Global,
    w: &mut W,
    eof: u64,
    nodes: &[NodeEntry],
    plan: &Plan,
) -> Result<(), CompactStop>
    requires ready { IsReady (W.view w.old) eof nodes.now plan.now }
    ensures keeps { KeepsSource (W.view w.old) (W.view w.new) }
    ensures fault { result ≡ Err CompactStop.Fault → Rose (W.view w.old).disk_faults (W.view w.new).disk_faults }
    ensures stops { IfErr result (λ stop. StopsCopy stop (W.view w.new)) }
    ensures copy { OnOk result ((W.view w.new).tells → AddsParts (file_of (W.view w.old).here) plan.now.chosen.items nodes.now (layout_of plan.now) (W.view w.old).here.copy (W.view w.new).here.copy) }
{
    copy_blocks(
        alloc,
        w,
        eof,
        plan.chosen.as_slice(),
        plan.blocks.as_slice(),
    )?;
    put_tree(alloc, w, NODE_TREE, nodes, &plan.nodes)?;
    put_tree(alloc, w, BLOCK_TREE, plan.blocks.as_slice(), &plan.tree)?;
    Ok(())
}

/// Writes the page that older readers look for, which names no other.
fn put_dense<W: Outside>(w: &mut W, number: u64) -> Result<(), CompactStop>
    ensures keeps { KeepsSource (W.view w.old) (W.view w.new) }
    ensures fault { result ≡ Err CompactStop.Fault → Rose (W.view w.old).disk_faults (W.view w.new).disk_faults }
    ensures stops { IfErr result (λ stop. StopsCopy stop (W.view w.new)) }
    ensures copy { OnOk result ((W.view w.new).tells → AddsDense number (W.view w.old).here.copy (W.view w.new).here.copy) }
{
    let bid = Bid { bits: number };
    let page = seal(&[0; 496], DENSE_LIST, Bref { bid, ib: DENSE });
    put(w, DENSE, &page)?;
    Ok(())
}

/// Writes the header, once all that was written before is stable, and makes it stable.
fn put_header<W: Outside>(w: &mut W, header: &Header) -> Result<(), CompactStop>
    requires { IsWritable header.now }
    ensures keeps { KeepsSource (W.view w.old) (W.view w.new) }
    ensures fault { result ≡ Err CompactStop.Fault → Rose (W.view w.old).disk_faults (W.view w.new).disk_faults }
    ensures stops { IfErr result (λ stop. StopsCopy stop (W.view w.new)) }
    ensures copy { OnOk result ((W.view w.new).tells → AddsHeader header.now (W.view w.old).here.copy (W.view w.new).here.copy) }
    ensures stable { OnOk result (IsStable (W.view w.new)) }
{
    settle(w)?;
    put(w, 0, &write(header))?;
    settle(w)?;
    Ok(())
}

/// Writes all but the header. The last byte is first, since a block may end with it.
fn put_all<W: Outside>(
    alloc: Global,
    w: &mut W,
    eof: u64,
    nodes: &[NodeEntry],
    plan: &Plan,
    slots: &Slots,
) -> Result<(), CompactStop>
    requires ready { IsReady (W.view w.old) eof nodes.now plan.now }
    requires regions { HasRegions plan.now (regions_of slots.now) }
    requires size { length slots.now ≡ 3968 * regions_of slots.now }
    ensures keeps { KeepsSource (W.view w.old) (W.view w.new) }
    ensures fault { result ≡ Err CompactStop.Fault → Rose (W.view w.old).disk_faults (W.view w.new).disk_faults }
    ensures stops { IfErr result (λ stop. StopsCopy stop (W.view w.new)) }
    ensures copy { OnOk result (PutsAll (W.view w.old) nodes.now plan.now slots.now (W.view w.new)) }
{
    put(w, plan.eof - 1, &[0])?;
    put_parts(alloc, w, eof, nodes, plan)?;
    put_fixed(alloc, w, slots, slots.regions())?;
    put_dense(w, plan.tree.next_page)?;
    Ok(())
}

/// The slots on which a plan's blocks, pages and fixed pages stand.
fn slots_in(alloc: Global, plan: &Plan) -> Result<Slots, CompactStop>
    requires short { AllShort plan.now.blocks.items }
    requires some { 271360 ≤ plan.now.eof }
    requires small { plan.now.eof ≤ LARGEST }
    requires regions { HasRegions plan.now ((plan.now.eof - 17408) / 253952) }
    ensures size { IfOk result (λ slots. length slots ≡ 3968 * ((plan.now.eof - 17408) / 253952)) }
    ensures used { IfOk result (IsCovered (occupied (layout_places (layout_of plan.now)) ((plan.now.eof - 17408) / 253952))) }
    ensures memory { IfErr result (λ stop. stop ≡ CompactStop.Memory) }
{
    let regions = ((plan.eof - FIRST) / REGION) as u32;
    let places = places_in(alloc, plan)?;
    used_slots(alloc, places.as_slice(), regions)
}

/// The header of the copy.
fn header_of(source: &Source, plan: &Plan, slots: &Slots) -> Header
    requires writable { IsWritable source.now.header }
    requires regions { HasRegions plan.now (regions_of slots.now) }
    requires few { plan.now.tree.next_page ≤ 2 ^ 63 }
    ensures header { IsHeaderOf source.now plan.now slots.now result }
    ensures writable { IsWritable result }
{
    copy_header(
        &source.header,
        Made {
            eof: plan.eof,
            free: slots.free_bytes(slots.regions()),
            nbt: plan.nodes.root,
            bbt: plan.tree.root,
            next_block: source.next_block,
            next_page: plan.tree.next_page + 1,
        },
    )
}

/// Writes the copy that is planned of a file, and makes it stable.
pub(crate) fn write_copy<W: Outside>(
    alloc: Global,
    w: &mut W,
    source: &Source,
    nodes: &[NodeEntry],
    plan: &Plan,
) -> Result<(), CompactStop>
    requires ready { IsReady (W.view w.old) source.now.header.eof nodes.now plan.now }
    requires small { plan.now.eof ≤ LARGEST }
    requires writable { IsWritable source.now.header }
    requires empty { (W.view w.old).tells → (W.view w.old).here.copy ≡ [] }
    ensures keeps { KeepsSource (W.view w.old) (W.view w.new) }
    ensures fault { result ≡ Err CompactStop.Fault → Rose (W.view w.old).disk_faults (W.view w.new).disk_faults }
    ensures stops { IfErr result (λ stop. StopsCopy stop (W.view w.new)) }
    ensures copy { OnOk result ((W.view w.new).tells → WritesCopy (file_of (W.view w.old).here) source.now nodes.now plan.now (W.view w.new).here.copy) }
    ensures stable { OnOk result (IsStable (W.view w.new)) }
{
    let slots = slots_in(alloc, plan)?;
    put_all(alloc, w, source.header.eof, nodes, plan, &slots)?;
    put_header(w, &header_of(source, plan, &slots))?;
    Ok(())
}
