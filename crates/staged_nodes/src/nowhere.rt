//! A world for what needs none.

use pst_outside::{Failed, Outside, Part};

/// A world without devices, for a store in memory: what is written goes nowhere, and it tells nothing.
#[derive(Drop)]
pub struct Nowhere {
    written: u128,
}

impl Nowhere {
    /// A world in which nothing has happened.
    pub fn new() -> Nowhere {
        Nowhere { written: 0 }
    }
}

impl Outside for Nowhere {
    ghost use Rattle.pst_outside.specs.Sure.{silent};

    ghost view = { λ w. silent 0 0 0 w.written };

    fn take(&mut self, _buf: &mut [u8]) -> Result<usize, Failed> {
        Ok(0)
    }

    fn say(&mut self, piece: &[u8]) -> Result<usize, Failed> {
        Ok(piece.len())
    }

    fn len(&mut self, _part: Part) -> Result<u64, Failed> {
        Ok(0)
    }

    fn read_at(&mut self, _part: Part, _at: u64, _buf: &mut [u8]) -> Result<usize, Failed> {
        Ok(0)
    }

    fn write_at(&mut self, _part: Part, _at: u64, bytes: &[u8]) -> Result<(), Failed> {
        self.written = self.written.saturating_add(bytes.len() as u128);
        Ok(())
    }

    fn sync(&mut self, _part: Part) -> Result<(), Failed> {
        Ok(())
    }
}
