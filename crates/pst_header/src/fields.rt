//! The header's fields, read from its bytes and written into them, each a word of `Format`.
ghost use Rattle.std.specs.Prelude.{◌≡◌, length};
ghost use Rattle.pst_base.specs.Cells.{Fit, written};
ghost use Rattle.pst_base.specs.Fields.{number_at};
ghost use Rattle.pst_header.specs.Format.{IsWritable, blanked, crc_cells, full_of, header_of, index_cells, indexes_of, own_cells, partial_of, root_cells, with_crcs, with_fields};

use crate::header::Header;
use crate::layout::{
    AMAP_FREE, AMAP_LAST, BBT_BID, BBT_IB, CLIENT_VERSION, CRC_FULL, CRC_PARTIAL, CRYPT, EOF,
    FREE_MAPS, FULL, INDEXES, IS_PST, IS_STORE, MAGIC, MAGIC_CLIENT, MAPS, NBT_BID, NBT_IB,
    NEXT_BLOCK, NEXT_PAGE, PARTIAL, PLATFORMS, PMAP_FREE, SENTINEL, UNICODE, UNIQUE, VERSION,
};
use pst_base::{Bid, Bref, part, put_u8, put_u16, put_u32, put_u64, u8_at, u16_at, u32_at, u64_at};
use pst_checksum::crc;

/// A header of zeros.
const BLANK: Header = Header {
    wver: 0,
    crypt: 0,
    unique: 0,
    next_block: 0,
    next_page: 0,
    indexes: [0; 32],
    eof: 0,
    amap_last: 0,
    amap_free: 0,
    pmap_free: 0,
    nbt: Bref {
        bid: Bid { bits: 0 },
        ib: 0,
    },
    bbt: Bref {
        bid: Bid { bits: 0 },
        ib: 0,
    },
    maps: 0,
    kept: [0; 564],
};

/// The checksum that dwCRCPartial ought to be.
#[tactic(auto, unfolding(crate::specs::Format::partial_of))]
pub(crate) fn partial_crc(b: &[u8]) -> u32
    requires { length b.now ≡ 564 }
    ensures { result ≡ partial_of b.now }
{
    crc(part(b, MAGIC_CLIENT, PARTIAL))
}

/// The checksum that dwCRCFull ought to be.
#[tactic(auto, unfolding(crate::specs::Format::full_of))]
pub(crate) fn full_crc(b: &[u8]) -> u32
    requires { length b.now ≡ 564 }
    ensures { result ≡ full_of b.now }
{
    crc(part(b, MAGIC_CLIENT, FULL))
}

/// Writes the fields of the ROOT.
#[tactic(auto, unfolding(crate::specs::Format::root_cells, pst_base::specs::Cells::written))]
fn put_root(b: &mut [u8], h: &Header)
    requires { length b.old ≡ 564 }
    ensures written { b.new ≡ written (root_cells h.now) b.old }
    ensures fits { Fit 564 (root_cells h.now) }
{
    put_u8(b, MAPS, h.maps);
    put_u64(b, BBT_IB, h.bbt.ib);
    put_u64(b, BBT_BID, h.bbt.bid.bits);
    put_u64(b, NBT_IB, h.nbt.ib);
    put_u64(b, NBT_BID, h.nbt.bid.bits);
    put_u64(b, PMAP_FREE, h.pmap_free);
    put_u64(b, AMAP_FREE, h.amap_free);
    put_u64(b, AMAP_LAST, h.amap_last);
    put_u64(b, EOF, h.eof);
}

/// Writes the fields around the ROOT, but the indexes.
#[tactic(auto, unfolding(crate::specs::Format::own_cells, pst_base::specs::Cells::written))]
fn put_own(b: &mut [u8], h: &Header)
    requires { length b.old ≡ 564 }
    ensures written { b.new ≡ written (own_cells h.now) b.old }
    ensures fits { Fit 564 (own_cells h.now) }
{
    put_u64(b, NEXT_PAGE, h.next_page);
    put_u64(b, NEXT_BLOCK, h.next_block);
    put_u32(b, UNIQUE, h.unique);
    put_u8(b, CRYPT, h.crypt);
    put_u16(b, VERSION, h.wver);
}

/// Writes the last index of each kind.
fn put_indexes(b: &mut [u8], indexes: &[u32; 32])
    requires { length b.old ≡ 564 }
    ensures written { b.new ≡ written (index_cells indexes.now 32) b.old }
    ensures fits { Fit 564 (index_cells indexes.now 32) }
{
    for kind in 0..32 {
        put_u32(b, INDEXES + 4 * kind, indexes[kind]);
    }
}

/// Writes all fields but the checksums.
#[tactic(auto, unfolding(crate::specs::Format::with_fields))]
pub(crate) fn put_fields(b: &mut [u8], h: &Header)
    requires { length b.old ≡ 564 }
    ensures written { b.new ≡ with_fields h.now b.old }
    ensures root { Fit 564 (root_cells h.now) }
    ensures own { Fit 564 (own_cells h.now) }
    ensures indexes { Fit 564 (index_cells h.now.indexes 32) }
{
    put_indexes(b, &h.indexes);
    put_own(b, h);
    put_root(b, h);
}

/// Writes both checksums.
#[tactic(auto, unfolding(crate::specs::Format::with_crcs, crate::specs::Format::crc_cells, pst_base::specs::Cells::written))]
pub(crate) fn put_crcs(b: &mut [u8], partial: u32, full: u32)
    requires { length b.old ≡ 564 }
    ensures written { b.new ≡ with_crcs partial full b.old }
    ensures fits { Fit 564 (crc_cells partial full) }
{
    put_u32(b, CRC_FULL, full);
    put_u32(b, CRC_PARTIAL, partial);
}

/// The bytes that no field has, with zeros in place of the others.
#[tactic(auto, unfolding(crate::specs::Format::blanked))]
fn kept_bytes(b: &[u8; 564]) -> [u8; 564]
    ensures { result ≡ blanked b.now }
{
    let mut kept = *b;
    put_fields(&mut kept, &BLANK);
    put_crcs(&mut kept, 0, 0);
    kept
}

/// The last index of each kind.
fn indexes(b: &[u8]) -> [u32; 32]
    requires { length b.now ≡ 564 }
    ensures { result ≡ indexes_of b.now }
{
    let mut all = [0u32; 32];
    for kind in 0..32 {
        all[kind] = u32_at(b, INDEXES + 4 * kind);
    }
    all
}

/// The fields that the bytes hold.
#[tactic(auto, unfolding(crate::specs::Format::header_of))]
pub(crate) fn header(b: &[u8; 564]) -> Header
    ensures { result ≡ header_of b.now }
{
    Header {
        wver: u16_at(b, VERSION),
        crypt: u8_at(b, CRYPT),
        unique: u32_at(b, UNIQUE),
        next_block: u64_at(b, NEXT_BLOCK),
        next_page: u64_at(b, NEXT_PAGE),
        indexes: indexes(b),
        eof: u64_at(b, EOF),
        amap_last: u64_at(b, AMAP_LAST),
        amap_free: u64_at(b, AMAP_FREE),
        pmap_free: u64_at(b, PMAP_FREE),
        nbt: Bref {
            bid: Bid {
                bits: u64_at(b, NBT_BID),
            },
            ib: u64_at(b, NBT_IB),
        },
        bbt: Bref {
            bid: Bid {
                bits: u64_at(b, BBT_BID),
            },
            ib: u64_at(b, BBT_IB),
        },
        maps: u8_at(b, MAPS),
        kept: kept_bytes(b),
    }
}

/// The bytes of a new header around its fields: the magic numbers, the version, that of the client and of the two platforms, no free map of a file of more than 128 regions, and the sentinel.
fn new_bytes() -> [u8; 564]
    ensures magic { number_at 4 MAGIC result ≡ IS_PST }
    ensures client { number_at 2 MAGIC_CLIENT result ≡ IS_STORE }
    ensures version { number_at 2 VERSION result ≡ UNICODE }
    ensures plain { number_at 1 CRYPT result ≡ 0 }
{
    let mut b = [0; 564];
    b[FREE_MAPS..SENTINEL].fill(0xff);
    put_u8(&mut b, SENTINEL, 0x80);
    put_u16(&mut b, CLIENT_VERSION, 19);
    put_u16(&mut b, PLATFORMS, 0x0101);
    put_u8(&mut b, CRYPT, 0);
    put_u16(&mut b, VERSION, UNICODE);
    put_u16(&mut b, MAGIC_CLIENT, IS_STORE);
    put_u32(&mut b, MAGIC, IS_PST);
    b
}

/// The header of a new file, whose fields but wVer are 0. It can be written, with any numbers in the other fields.
pub fn new_header() -> Header
    ensures { IsWritable result }
{
    header(&new_bytes())
}
