//! Computes the checksum of a buffer by the store's own kernel or by one table, so that their rates can be compared.
//!
//! Both are proved to be the checksum that `pst_base` defines. The words are the kernel, `sliced` or `one-table`, how many MiB the buffer has, and how often it is gone through; without them `sliced`, 1 and once. `bench/crc.sh` times it.

mod one_table;
mod table;

ghost use Rattle.std.specs.Prelude.{◌≡◌};
ghost use Rattle.pst_checksum.specs.Crc.{crc_of};

use crate::numbers::number_or;
use one_table::crc_by_one_table;
use pst_checksum::crc;
use std::alloc::{AllocError, Global};

/// How the checksum is computed.
#[derive(Clone, Copy)]
enum Kernel {
    OneTable,
    Sliced,
}

impl Kernel {
    /// The checksum of the bytes.
    fn checksum(self, bytes: &[u8]) -> u32
        ensures { result ≡ crc_of bytes.now }
    {
        match self {
            Kernel::OneTable => crc_by_one_table(bytes),
            Kernel::Sliced => crc(bytes),
        }
    }

    /// The sum of the checksums of so many passes, each over a buffer with another first byte.
    fn passes(self, bytes: &mut [u8], count: u32) -> u32 {
        let mut sum = 0;
        for pass in 0..count {
            if let Some(first) = bytes.first_mut() {
                *first = (pass & 0xff) as u8;
            }
            sum ^= self.checksum(bytes);
        }
        sum
    }
}

/// A buffer of so many MiB, whose bytes aren't all the same.
fn buffer(alloc: Global, mebibytes: u16) -> Result<Vec<u8>, AllocError> {
    let mut bytes = vec![in alloc; 0u8; usize::from(mebibytes) << 20]?;
    let mut value = 1u8;
    for b in bytes.iter_mut() {
        *b = value;
        value = value.wrapping_mul(5).wrapping_add(17);
    }
    Ok(bytes)
}

/// The kernel that a word names.
fn named(word: &str) -> Kernel {
    match word {
        "one-table" => Kernel::OneTable,
        _ => Kernel::Sliced,
    }
}

/// The sum of the passes that the words ask for.
pub(crate) fn report(alloc: Global, words: &[String]) -> Result<String, AllocError> {
    let kernel = words
        .first()
        .map_or(Kernel::Sliced, |word| named(word.as_str()));
    let mebibytes = number_or(words, 1, 1).min(65_535) as u16;
    let mut bytes = buffer(alloc, mebibytes)?;
    let sum = kernel.passes(bytes.as_mut_slice(), number_or(words, 2, 1));
    format!(in alloc; "{sum:08x}")
}
