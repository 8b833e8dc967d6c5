//! The checksum as it is mostly written: a byte at a time, with one table.
ghost use Rattle.std.specs.Prelude.{◌≡◌};
ghost use Rattle.pst_checksum.specs.Crc.{crc_of};

use crate::crc::table::AFTER_8;

/// The checksum of the bytes.
pub fn crc_by_one_table(bytes: &[u8]) -> u32
    ensures { result ≡ crc_of bytes.now }
{
    let mut register = 0u32;
    for b in bytes {
        register = AFTER_8[((register & 0xff) as u8 ^ b) as usize] ^ register >> 8;
    }
    register
}
