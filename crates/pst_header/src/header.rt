//! The header's fields, and why bytes are no header.
use pst_base::Bref;
use thiserror::Error;

/// The fields of the header ([MS-PST] 2.2.2.6), and all other bytes.
#[derive(Clone, Copy, Debug, PartialEq, Eq)]
pub struct Header {
    /// wVer, 23 in a Unicode file.
    pub wver: u16,
    /// bCryptMethod, 0 where the blocks aren't encoded.
    pub crypt: u8,
    /// dwUnique.
    pub unique: u32,
    /// bidNextB.
    pub next_block: u64,
    /// bidNextP.
    pub next_page: u64,
    /// rgnid: for each kind of node the last index given.
    pub indexes: [u32; 32],
    /// ibFileEof, in bytes.
    pub eof: u64,
    /// ibAMapLast.
    pub amap_last: u64,
    /// cbAMapFree, in bytes.
    pub amap_free: u64,
    /// cbPMapFree, in bytes.
    pub pmap_free: u64,
    /// BREFNBT: the root of the node tree.
    pub nbt: Bref,
    /// BREFBBT: the root of the block tree.
    pub bbt: Bref,
    /// fAMapValid.
    pub maps: u8,
    /// The header's bytes, with zeros in place of the fields above and of the two checksums.
    pub kept: [u8; 564],
}

/// Why bytes are no header, in the order in which it is looked for.
#[derive(Clone, Copy, Debug, PartialEq, Eq, Error)]
pub enum HeaderRefusal {
    /// The bytes don't begin with `!BDN`, or bytes 8 and 9 aren't `SM`.
    #[error("not-pst")]
    NotPst,
    /// wVer isn't 23.
    #[error("version {found}")]
    Version {
        found: u16,
    },
    /// A stored checksum isn't that of the bytes: the partial one, and where it holds the full one.
    #[error("crc {} {stored:08x} {computed:08x}", if *full {"full"} else {"partial"})]
    Crc {
        full: bool,
        stored: u32,
        computed: u32,
    },
    /// bCryptMethod isn't 0.
    #[error("encoded {method}")]
    Encoded {
        method: u8,
    },
}
