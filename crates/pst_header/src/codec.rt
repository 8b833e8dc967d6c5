//! Reading and writing the header.
ghost use Rattle.std.specs.Prelude.{◌≡◌, ℕ, ◌<◌, List, length, slice_index, IfOk, Ok};
ghost use Rattle.pst_header.specs.Format.{IsWritable, all_cells, bytes_of, full_of, partial_of, reading, with_fields};
ghost use Rattle.pst_base.specs.Cells.{Fit};

use crate::fields::{full_crc, header, partial_crc, put_crcs, put_fields};
use crate::header::{Header, HeaderRefusal};
use crate::layout::{
    CRC_FULL, CRC_PARTIAL, CRYPT, IS_PST, IS_STORE, MAGIC, MAGIC_CLIENT, UNICODE, VERSION,
};
use pst_base::{u8_at, u16_at, u32_at};

/// Reads the header's bytes. A refusal is the first of these that applies: the magic numbers aren't those of a .pst file, the version isn't 23, the partial checksum is wrong, the full one is, the blocks are encoded. What is read can be written again.
#[tactic(auto, unfolding(crate::specs::Format::reading))]
pub fn read(b: &[u8; 564]) -> Result<Header, HeaderRefusal>
    ensures exact { result ≡ reading b.now }
    ensures writable { IfOk result IsWritable }
{
    if u32_at(b, MAGIC) != IS_PST || u16_at(b, MAGIC_CLIENT) != IS_STORE {
        return Err(HeaderRefusal::NotPst);
    }
    let found = u16_at(b, VERSION);
    if found != UNICODE {
        return Err(HeaderRefusal::Version { found });
    }
    let stored = u32_at(b, CRC_PARTIAL);
    let computed = partial_crc(b);
    if stored != computed {
        return Err(HeaderRefusal::Crc {
            full: false,
            stored,
            computed,
        });
    }
    let stored = u32_at(b, CRC_FULL);
    let computed = full_crc(b);
    if stored != computed {
        return Err(HeaderRefusal::Crc {
            full: true,
            stored,
            computed,
        });
    }
    let method = u8_at(b, CRYPT);
    if method != 0 {
        return Err(HeaderRefusal::Encoded { method });
    }
    Ok(header(b))
}

/// The header's bytes, which have both checksums.
#[tactic(auto, unfolding(crate::specs::Format::bytes_of))]
fn sealed(h: &Header) -> [u8; 564]
    ensures bytes { result ≡ bytes_of h.now }
    ensures fits { let b = with_fields h.now h.now.kept in Fit 564 (all_cells (partial_of b) (full_of b) h.now) }
{
    let mut b = h.kept;
    put_fields(&mut b, h);
    let partial = partial_crc(&b);
    let full = full_crc(&b);
    put_crcs(&mut b, partial, full);
    b
}

/// The bytes of a header that can be written, as `read` gives it or with other fields but `wver`, `crypt` and `kept`. They read as the header, and no other bytes do.
pub fn write(h: &Header) -> [u8; 564]
    requires { IsWritable h.now }
    ensures back { reading result ≡ Ok h.now }
    ensures only { (b : List ℕ) → length b ≡ 564 → ((i : ℕ) → slice_index b i < 256) → reading b ≡ Ok h.now → b ≡ result }
{
    sealed(h)
}
