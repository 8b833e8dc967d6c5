//! The header of a file without nodes, and the parts of the file.
ghost use Rattle.std.specs.Prelude.{◌≡◌, IfOk, OnOk};
ghost use Rattle.pst_header.specs.Format.{IsWritable};
ghost use Rattle.empty_file.specs.Empty.{AddsPage, AreParts, IsFirst};

use btree_pages::{BlockEntry, NodeEntry, write_leaf};
use lays_kept::Piece;
use page_frame::seal;
use pst_base::{Bid, Bref, Bytes};
use pst_header::{Header, new_header, write};
use std::alloc::{AllocError, Global};

/// Where the page that older readers look for stands, in front of the first region.
const DENSE_LIST: u64 = 0x4200;

/// Where the first region begins, with its map of used slots.
const MAP: u64 = 0x4400;

/// Where the map of used pages stands.
const PAGE_MAP: u64 = 0x4600;

/// Where the root of the block tree stands.
pub(crate) const BLOCK_ROOT: u64 = 0x4c00;

/// Where the root of the node tree stands.
pub(crate) const NODE_ROOT: u64 = 0x4e00;

/// How many bytes a file of one region has.
const EOF: u64 = 271_360;

/// The id of a page and its place.
fn page_at(bits: u64, ib: u64) -> Bref
    ensures { result ≡ record { bid = record { bits = bits }; ib = ib } }
{
    Bref {
        bid: Bid { bits },
        ib,
    }
}

/// The header of a file without nodes.
pub(crate) fn first_header() -> Header
    ensures { IsFirst result }
{
    Header {
        unique: 0,
        next_block: 4,
        next_page: 4,
        eof: EOF,
        amap_last: MAP,
        nbt: page_at(3, NODE_ROOT),
        bbt: page_at(2, BLOCK_ROOT),
        maps: 0,
        ..new_header()
    }
}

/// Adds a page of a kind with this content, sealed for its place.
fn push_page(
    alloc: Global,
    parts: &mut Vec<Piece>,
    kind: u8,
    body: &[u8; 496],
    at: Bref,
) -> Result<(), AllocError>
    ensures { OnOk result (AddsPage kind at body.now parts.old.items parts.new.items) }
{
    let bytes = Bytes::from_slice(alloc, &seal(body, kind, at))?;
    parts.push(Piece { at: at.ib, bytes })?;
    Ok(())
}

/// The parts of a file without nodes, by their places ([MS-PST] 2.2.2.6 to 2.2.2.7). All bits of the maps are set, since the header doesn't vouch for them.
pub(crate) fn parts(alloc: Global, header: &Header) -> Result<Vec<Piece>, AllocError>
    requires { IsWritable header.now }
    ensures { IfOk result (λ parts. AreParts header.now parts.items) }
{
    let mut parts = Vec::new(alloc);
    let bytes = Bytes::from_slice(alloc, &write(header))?;
    parts.push(Piece { at: 0, bytes })?;
    push_page(alloc, &mut parts, 0x86, &[0; 496], page_at(1, DENSE_LIST))?;
    push_page(alloc, &mut parts, 0x84, &[0xff; 496], page_at(MAP, MAP))?;
    push_page(
        alloc,
        &mut parts,
        0x83,
        &[0xff; 496],
        page_at(PAGE_MAP, PAGE_MAP),
    )?;
    let blocks = write_leaf::<BlockEntry>(&[]);
    push_page(alloc, &mut parts, 0x80, &blocks, page_at(2, BLOCK_ROOT))?;
    let nodes = write_leaf::<NodeEntry>(&[]);
    push_page(alloc, &mut parts, 0x81, &nodes, page_at(3, NODE_ROOT))?;
    let bytes = Bytes::from_slice(alloc, &[0])?;
    parts.push(Piece { at: EOF - 1, bytes })?;
    Ok(parts)
}
