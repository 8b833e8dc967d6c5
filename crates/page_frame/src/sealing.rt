//! Writing a page's frame.
ghost use Rattle.std.specs.Prelude.{◌≡◌, ◌<◌, ℕ, List, slice_index};
ghost use Rattle.pst_base.specs.Cells.{Fit};
ghost use Rattle.pst_checksum.specs.Crc.{crc_of};
ghost use Rattle.page_frame.specs.Page.{IsPage, page_of, signature_of, trailer_cells, trailer_of};

use crate::page::{BODY, signature};
use pst_base::{Bref, put_u8, put_u16, put_u32, put_u64};
use pst_checksum::crc;

/// A trailer of these numbers.
#[tactic(auto, unfolding(crate::specs::Page::trailer_of))]
fn trailer(kind: u8, signature: u16, checksum: u32, bid: u64) -> [u8; 16]
    ensures bytes { result ≡ trailer_of kind signature checksum bid }
    ensures fits { Fit 16 (trailer_cells kind signature checksum bid) }
{
    let mut b = [0u8; 16];
    put_u8(&mut b, 0, kind);
    put_u8(&mut b, 1, kind);
    put_u16(&mut b, 2, signature);
    put_u32(&mut b, 4, checksum);
    put_u64(&mut b, 8, bid);
    b
}

/// The page's bytes.
#[tactic(auto, unfolding(crate::specs::Page::page_of))]
fn sealed(body: &[u8; 496], kind: u8, at: Bref) -> [u8; 512]
    ensures bytes { result ≡ page_of kind at body.now }
    ensures fits { Fit 16 (trailer_cells kind (signature_of kind at.ib at.bid.bits) (crc_of body.now) at.bid.bits) }
{
    let trailer = trailer(
        kind,
        signature(kind, at.ib, at.bid.bits),
        crc(body),
        at.bid.bits,
    );
    let mut page = [0u8; 512];
    page[..BODY].copy_from_slice(body);
    page[BODY..].copy_from_slice(&trailer);
    page
}

/// The page of a kind with this content, which stands at a place under an id. It reads as the content, and no other bytes do.
pub fn seal(body: &[u8; 496], kind: u8, at: Bref) -> [u8; 512]
    ensures page { IsPage kind at body.now result }
    ensures only { (page : List ℕ) → IsPage kind at body.now page
        → ((i : ℕ) → slice_index page i < 256) → page ≡ result }
{
    sealed(body, kind, at)
}
