//! Reading a block's frame.
ghost use Rattle.std.specs.Prelude.{◌≡◌, ◌≤◌, length};
ghost use Rattle.block_frame.specs.Size.{disk_size_of};

use pst_base::{Bid, Bref, u16_at, u32_at, u64_at};
use pst_checksum::{crc, sig};
use std::marker::Model;

/// What is wrong with a block's trailer ([MS-PST] 2.2.2.8.1), with the two numbers that the check compared.
#[derive(Clone, Copy, Debug, PartialEq, Eq)]
pub enum BlockFault {
    /// The trailer's length isn't the one that was asked for.
    Length { stored: u64, computed: u64 },
    /// The stored CRC isn't that of the data.
    Crc { stored: u64, computed: u64 },
    /// The stored signature isn't that of the place and the trailer's id.
    Sig { stored: u64, computed: u64 },
    /// The trailer's id isn't the one that was asked for. Both stand without bit 0, by which blocks are compared.
    Bid { stored: u64, computed: u64 },
}

/// A block whose frame is right. Contracts see its data.
#[derive(Debug, Drop)]
pub struct BlockView<'a> {
    body: &'a [u8],
}

impl<'a> Model for BlockView<'a> {
    ghost use Rattle.std.specs.Prelude.{ℕ, List};

    ghost Value = { List ℕ };

    ghost view = { λ b. b.body.now };
}

/// How many bytes a block of so many data bytes, at most 8176, takes in the file.
pub fn disk_size(cb: u16) -> usize
    requires { cb ≤ 8176 }
    ensures { result ≡ disk_size_of cb }
{
    (usize::from(cb) + 79) / 64 * 64
}

impl<'a> BlockView<'a> {
    ghost use Rattle.block_frame.specs.Block.{reading};

    /// Reads the block of `cb` data bytes that stands at a place under an id, from all its bytes in the file. The bytes between data and trailer aren't read.
    ///
    /// The faults in the order in which they are looked for: `Length`; `Crc`, of the data; `Sig`, of the place and the trailer's own id; `Bid`, without bit 0.
    #[tactic(auto, unfolding(crate::specs::Block::reading))]
    pub fn read(b: &'a [u8], cb: u16, at: Bref) -> Result<BlockView<'a>, BlockFault>
        requires cb { cb ≤ 8176 }
        requires size { length b.now ≡ disk_size_of cb }
        ensures { result ≡ reading cb at b.now }
    {
        let trailer = disk_size(cb) - 16;
        let stored = u16_at(b, trailer);
        if stored != cb {
            return Err(BlockFault::Length {
                stored: u64::from(stored),
                computed: u64::from(cb),
            });
        }
        let data = &b[..usize::from(cb)];
        let (stored, computed) = (u32_at(b, trailer + 4), crc(data));
        if stored != computed {
            return Err(BlockFault::Crc {
                stored: u64::from(stored),
                computed: u64::from(computed),
            });
        }
        let bid = Bid {
            bits: u64_at(b, trailer + 8),
        };
        let (stored, computed) = (u16_at(b, trailer + 2), sig(at.ib, bid));
        if stored != computed {
            return Err(BlockFault::Sig {
                stored: u64::from(stored),
                computed: u64::from(computed),
            });
        }
        let (stored, computed) = (bid.key(), at.bid.key());
        if stored != computed {
            return Err(BlockFault::Bid { stored, computed });
        }
        Ok(BlockView { body: data })
    }

    /// The data.
    pub fn body(&self) -> &'a [u8]
        ensures { result.now ≡ self.now }
    {
        self.body
    }
}
