//! Where the fields of the header stand, by their names in [MS-PST] 2.2.2.6 and, from `EOF` to `MAPS`, of the ROOT in it, 2.2.2.5.

/// dwMagic, 4 bytes.
pub const MAGIC: usize = 0;
/// dwCRCPartial, 4 bytes.
pub const CRC_PARTIAL: usize = 4;
/// wMagicClient, 2 bytes. Here begin the bytes of both checksums.
pub const MAGIC_CLIENT: usize = 8;
/// wVer, 2 bytes.
pub const VERSION: usize = 10;
/// wVerClient, 2 bytes, which no reader relies on.
pub const CLIENT_VERSION: usize = 12;
/// bPlatformCreate and bPlatformAccess, 1 byte each.
pub const PLATFORMS: usize = 14;
/// bidNextP, 8 bytes.
pub const NEXT_PAGE: usize = 32;
/// dwUnique, 4 bytes.
pub const UNIQUE: usize = 40;
/// rgnid, 32 numbers of 4 bytes.
pub const INDEXES: usize = 44;
/// ibFileEof, 8 bytes.
pub const EOF: usize = 184;
/// ibAMapLast, 8 bytes.
pub const AMAP_LAST: usize = 192;
/// cbAMapFree, 8 bytes.
pub const AMAP_FREE: usize = 200;
/// cbPMapFree, 8 bytes.
pub const PMAP_FREE: usize = 208;
/// The bid of BREFNBT, 8 bytes.
pub const NBT_BID: usize = 216;
/// Its ib, 8 bytes.

pub const NBT_IB: usize = 224;
/// The bid of BREFBBT, 8 bytes.
pub const BBT_BID: usize = 232;
/// Its ib, 8 bytes.

pub const BBT_IB: usize = 240;
/// fAMapValid, 1 byte.
pub const MAPS: usize = 248;
/// rgbFM and rgbFP, 128 bytes each, which a writer of today fills with FFh.
pub const FREE_MAPS: usize = 256;
/// bSentinel, 1 byte.
pub const SENTINEL: usize = 512;
/// bCryptMethod, 1 byte.
pub const CRYPT: usize = 513;
/// bidNextB, 8 bytes.
pub const NEXT_BLOCK: usize = 516;
/// dwCRCFull, 4 bytes.
pub const CRC_FULL: usize = 524;

/// What dwMagic is: `!BDN`, the lowest byte first.
pub const IS_PST: u32 = 0x4e444221;
/// What wMagicClient is: `SM`, the lowest byte first.
pub const IS_STORE: u16 = 0x4d53;
/// What wVer is in a Unicode file.
pub const UNICODE: u16 = 23;
/// How many bytes dwCRCPartial covers.
pub const PARTIAL: usize = 471;
/// How many bytes dwCRCFull covers.
pub const FULL: usize = 516;
