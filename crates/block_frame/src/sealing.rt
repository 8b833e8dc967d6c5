//! Writing a block's frame.
ghost use Rattle.std.specs.Prelude.{◌≡◌, ◌≤◌, ◌-◌, length, IfOk, Ok};
ghost use Rattle.pst_base.specs.Cells.{Fit};
ghost use Rattle.pst_checksum.specs.Crc.{crc_of};
ghost use Rattle.pst_checksum.specs.Sig.{sig_of};
ghost use Rattle.block_frame.specs.Block.{block_of, reading, trailer_cells, trailer_of};

use crate::block::disk_size;
use pst_base::{Bref, Bytes, put_u16, put_u32, put_u64};
use pst_checksum::{crc, sig};
use std::alloc::{AllocError, Global};

/// The zeros that stand before a trailer.
const ZEROS: [u8; 63] = [0; 63];

/// A trailer of these numbers.
#[tactic(auto, unfolding(crate::specs::Block::trailer_of))]
fn trailer(cb: u16, signature: u16, checksum: u32, bid: u64) -> [u8; 16]
    ensures bytes { result ≡ trailer_of cb signature checksum bid }
    ensures fits { Fit 16 (trailer_cells cb signature checksum bid) }
{
    let mut b = [0u8; 16];
    put_u16(&mut b, 0, cb);
    put_u16(&mut b, 2, signature);
    put_u32(&mut b, 4, checksum);
    put_u64(&mut b, 8, bid);
    b
}

/// The block's bytes.
#[tactic(auto, unfolding(crate::specs::Block::block_of))]
fn sealed(alloc: Global, body: &[u8], at: Bref) -> Result<Vec<u8>, AllocError>
    requires { length body.now ≤ 8176 }
    ensures bytes { IfOk result (λ block. block.items ≡ block_of at body.now) }
    ensures fits { Fit 16 (trailer_cells (length body.now) (sig_of at.ib at.bid.bits) (crc_of body.now) at.bid.bits) }
{
    let cb = body.len() as u16;
    let size = disk_size(cb);
    let trailer = trailer(cb, sig(at.ib, at.bid), crc(body), at.bid.bits);
    let mut block = Vec::with_capacity(alloc, size)?;
    block.extend_from_slice(body)?;
    block.extend_from_slice(&ZEROS[..size - 16 - body.len()])?;
    block.extend_from_slice(&trailer)?;
    Ok(block)
}

/// The block with this data, at most 8176 bytes, which stands at a place under an id: the data, zeros and a trailer. It reads as the data.
pub fn seal(alloc: Global, body: &[u8], at: Bref) -> Result<Bytes, AllocError>
    requires { length body.now ≤ 8176 }
    ensures bytes { IfOk result (λ block. block ≡ block_of at body.now) }
    ensures reads { IfOk result (λ block. reading (length body.now) at block ≡ Ok body.now) }
{
    Ok(Bytes::from_vec(sealed(alloc, body, at)?))
}
