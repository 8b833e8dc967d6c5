//! The bytes of the three parts of a disk in memory.
ghost use Rattle.std.specs.Prelude.{◌≡◌, ◌≤◌, ◌+◌, ◌++◌, ℕ, List, length, take, drop, IfOk, OnOk, OnErr};
ghost use Rattle.pst_outside.specs.World.{after_write};
ghost use Rattle.pst_outside.specs.Memory.{bytes_of, image_of, with_content};

use crate::Part;
use std::alloc::{AllocError, Global};

#[derive(Debug, Drop)]
pub struct Parts {
    pub main: Vec<u8>,
    pub side: Vec<u8>,
    pub copy: Vec<u8>,
}

impl Parts {
    /// Copies of three lists of bytes.
    pub fn copied(alloc: Global, main: &[u8], side: &[u8], copy: &[u8]) -> Result<Parts, AllocError>
        ensures main { IfOk result (λ p. p.main.items ≡ main.now) }
        ensures side { IfOk result (λ p. p.side.items ≡ side.now) }
        ensures copy { IfOk result (λ p. p.copy.items ≡ copy.now) }
    {
        Ok(Parts {
            main: Vec::from_slice(alloc, main)?,
            side: Vec::from_slice(alloc, side)?,
            copy: Vec::from_slice(alloc, copy)?,
        })
    }

    /// One part's bytes.
    pub fn bytes(&self, part: Part) -> &[u8]
        ensures { result.now ≡ bytes_of part self.now }
    {
        match part {
            Part::Main => self.main.as_slice(),
            Part::Side => self.side.as_slice(),
            Part::Copy => self.copy.as_slice(),
        }
    }

    /// Writes a piece at a place of a part, with zeros between the old end and the place. An `Err` changes nothing.
    pub fn overwrite(&mut self, part: Part, at: u64, piece: &[u8]) -> Result<(), AllocError>
        ensures ok { OnOk result ((spoken : List ℕ) → image_of self.new spoken ≡ with_content part (after_write (bytes_of part self.old) at piece.now) (image_of self.old spoken)) }
        ensures err { OnErr result ((spoken : List ℕ) → image_of self.new spoken ≡ image_of self.old spoken) }
    {
        match part {
            Part::Main => overwrite(&mut self.main, at, piece),
            Part::Side => overwrite(&mut self.side, at, piece),
            Part::Copy => overwrite(&mut self.copy, at, piece),
        }
    }
}

/// Writes a piece at a place, with zeros between the old end and the place. An `Err` changes nothing.
pub fn overwrite(file: &mut Vec<u8>, at: u64, piece: &[u8]) -> Result<(), AllocError>
    ensures ok { OnOk result (file.new.items ≡ after_write file.old.items at piece.now) }
    ensures err { OnErr result (file.new.items ≡ file.old.items) }
{
    let at = at as usize;
    let end = at.checked_add(piece.len()).ok_or(AllocError)?;
    let grown = file.len().max(end);
    file.resize(grown, 0)?;
    place(file, at, piece);
    Ok(())
}

fn place(file: &mut [u8], at: usize, piece: &[u8])
    requires { at + length piece.now ≤ length file.old }
    ensures { file.new ≡ take at file.old ++ piece.now ++ drop (at + length piece.now) file.old }
{
    file[at..at + piece.len()].copy_from_slice(piece);
}
