//! What makes a file longer by whole regions.
ghost use Rattle.std.specs.Prelude.{◌≡◌, ◌≤◌, ◌<◌, ◌-◌, ◌*◌, ◌++◌, ◌∷◌, [], IfOk, OnOk, length};
ghost use Rattle.lays_kept.specs.declared.Piece.{Piece as Pieces};
ghost use Rattle.node_layout.specs.Growth.{AllGrow, EndsAt, region_end};
ghost use Rattle.node_layout.specs.Lookups.{sum_of};
ghost use Rattle.plan_pieces.specs.Growth.{further_pages, growth_of, last_byte, map_page, new_pages, regions_in};

use lays_kept::Piece;
use page_frame::seal;
use pst_base::{Bid, Bref, Bytes};
use std::alloc::{AllocError, Global};

/// Where the first region begins.
const FIRST: u64 = 0x4400;

/// The length of a region, in bytes.
const REGION: u64 = 253_952;

/// The pieces by which a file that ends at `eof` grows to `end`, where a region ends: for each region that ends past `eof` and not past `end` a zero byte at its last place, behind its fixed pages where it begins at or past `eof` ([MS-PST] 2.2.2.7.2 to 2.2.2.7.5).
pub fn growth(alloc: Global, eof: u64, end: u64) -> Result<Vec<Piece>, AllocError>
    requires low { 17408 < eof }
    requires order { eof ≤ end }
    requires whole { end ≡ region_end (regions_in end) }
    requires few { end ≤ region_end 8192 }
    ensures exact { IfOk result (λ pieces. pieces.items ≡ growth_of eof end) }
    ensures grows { IfOk result (λ pieces. AllGrow eof pieces.items) }
    ensures ends { IfOk result (λ pieces. eof < end → EndsAt end pieces.items) }
    ensures bound { IfOk result (λ pieces. sum_of (λ (p : Pieces). length p.bytes) pieces.items ≤ 1537 * (regions_in end - regions_in eof)) }
{
    let mut pieces = Vec::new(alloc);
    for region in (eof - FIRST) / REGION..(end - FIRST) / REGION {
        push_region(alloc, &mut pieces, eof, region)?;
    }
    Ok(pieces)
}

/// Adds what makes a file longer by a region.
fn push_region(
    alloc: Global,
    pieces: &mut Vec<Piece>,
    eof: u64,
    region: u64,
) -> Result<(), AllocError>
    requires { region < 8192 }
    ensures { OnOk result (pieces.new.items ≡ pieces.old.items ++ (new_pages eof region ++ last_byte region ∷ [])) }
{
    push_new_pages(alloc, pieces, eof, region)?;
    let bytes = Bytes::from_slice(alloc, &[0])?;
    pieces.push(Piece {
        at: FIRST + REGION * (region + 1) - 1,
        bytes,
    })?;
    Ok(())
}

/// Adds the fixed pages of a region that begins at or past `eof`.
fn push_new_pages(
    alloc: Global,
    pieces: &mut Vec<Piece>,
    eof: u64,
    region: u64,
) -> Result<(), AllocError>
    requires { region < 8192 }
    ensures { OnOk result (pieces.new.items ≡ pieces.old.items ++ new_pages eof region) }
{
    let start = FIRST + REGION * region;
    if eof <= start {
        pieces.push(map_page(alloc, 0x84, 0, start)?)?;
        push_further_pages(alloc, pieces, region)
    } else {
        Ok(())
    }
}

/// Adds the pages behind a region's AMap page.
fn push_further_pages(alloc: Global, pieces: &mut Vec<Piece>, region: u64) -> Result<(), AllocError>
    requires { region < 8192 }
    ensures { OnOk result (pieces.new.items ≡ pieces.old.items ++ further_pages region) }
{
    let start = FIRST + REGION * region;
    if region % 496 == 128 {
        pieces.push(map_page(alloc, 0x83, 0xff, start + 512)?)?;
        pieces.push(map_page(alloc, 0x82, 0xff, start + 1024)?)?;
        Ok(())
    } else if region % 8 == 0 {
        pieces.push(map_page(alloc, 0x83, 0xff, start + 512)?)?;
        Ok(())
    } else {
        Ok(())
    }
}

/// A page of a kind whose content is one byte again and again, and whose id is its place.
fn map_page(alloc: Global, kind: u8, fill: u8, at: u64) -> Result<Piece, AllocError>
    ensures { IfOk result (λ piece. piece ≡ map_page kind fill at) }
{
    let bid = Bid { bits: at };
    let page = seal(&[fill; 496], kind, Bref { bid, ib: at });
    let bytes = Bytes::from_slice(alloc, &page)?;
    Ok(Piece { at, bytes })
}
