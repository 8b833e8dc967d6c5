//! A world in memory that never fails, with a limit on what it keeps.
ghost use Rattle.std.specs.Prelude.{◌≡◌, ◌↔◌, IsTrue, IfOk, ◌≤◌, vec_capacity};
ghost use Rattle.pst_outside.specs.World.{content};

use crate::input::Input;
use crate::memory::copy_from;
use crate::parts::Parts;
use crate::{Failed, Outside, Part};
use pst_base::Bytes;
use std::alloc::{AllocError, Global};

/// A disk, an input and an output in memory that never fail. Each part and the output has room for so many bytes, taken at the start; what would pass it isn't kept, and from then on the world tells nothing. It never tells what a crash may leave.
#[derive(Drop)]
pub struct SureWorld {
    parts: Parts,
    said: Vec<u8>,
    input: Input,
    room: usize,
    full: bool,
    written: u128,
}

impl SureWorld {
    ghost use Rattle.pst_outside.specs.Memory.{Starts};

    /// A world that holds these bytes and has this input, with nothing said. `room` is in bytes.
    pub fn new(
        alloc: Global,
        input: Bytes,
        main: Bytes,
        side: Bytes,
        copy: Bytes,
        room: u64,
    ) -> Result<SureWorld, AllocError>
        ensures { IfOk result (λ w. Starts input main side copy (⟦<SureWorld as Outside>⟧.view w)) }
    {
        let room = room as usize;
        Ok(SureWorld {
            parts: Parts {
                main: roomy(main, room)?,
                side: roomy(side, room)?,
                copy: roomy(copy, room)?,
            },
            said: Vec::with_capacity(alloc, room)?,
            input: Input::new(input),
            room,
            full: false,
            written: 0,
        })
    }

    /// What was said so far, if the world still tells.
    pub fn said(&self) -> &[u8]
        ensures { result.now ≡ (⟦<SureWorld as Outside>⟧.view self.now).here.said }
    {
        self.said.as_slice()
    }

    /// What a read of a part gives, if the world still tells.
    pub fn content(&self, part: Part) -> &[u8]
        ensures { result.now ≡ content part (⟦<SureWorld as Outside>⟧.view self.now).here }
    {
        self.parts.bytes(part)
    }

    /// Whether nothing has passed the room so far.
    pub fn tells(&self) -> bool
        ensures { IsTrue result ↔ (⟦<SureWorld as Outside>⟧.view self.now).tells }
    {
        !self.full
    }
}

impl Outside for SureWorld {
    ghost use Rattle.pst_outside.specs.Memory.{image_of};
    ghost use Rattle.pst_outside.specs.Sure.{sure};

    ghost view = { λ w. sure w.full (image_of w.parts w.said.items) w.written w.input };

    fn take(&mut self, buf: &mut [u8]) -> Result<usize, Failed> {
        Ok(self.input.take(buf))
    }

    fn say(&mut self, piece: &[u8]) -> Result<usize, Failed> {
        if piece.len() > self.room.saturating_sub(self.said.len())
            || self.said.extend_from_slice(piece).is_err()
        {
            self.full = true;
        }
        Ok(piece.len())
    }

    fn len(&mut self, part: Part) -> Result<u64, Failed> {
        Ok(self.parts.bytes(part).len() as u64)
    }

    fn read_at(&mut self, part: Part, at: u64, buf: &mut [u8]) -> Result<usize, Failed> {
        Ok(copy_from(self.parts.bytes(part), at, buf))
    }

    fn write_at(&mut self, part: Part, at: u64, bytes: &[u8]) -> Result<(), Failed> {
        self.written = self.written.saturating_add(bytes.len() as u128);
        if at.saturating_add(bytes.len() as u64) > self.room as u64 {
            self.full = true;
            return Ok(());
        }
        match self.parts.overwrite(part, at, bytes) {
            Ok(()) => Ok(()),
            Err(_) => {
                self.full = true;
                Ok(())
            }
        }
    }

    fn sync(&mut self, _part: Part) -> Result<(), Failed> {
        Ok(())
    }
}

fn roomy(bytes: Bytes, room: usize) -> Result<Vec<u8>, AllocError>
    ensures bytes { IfOk result (λ v. v.items ≡ bytes) }
    ensures room { IfOk result (λ v. room ≤ vec_capacity v) }
{
    let mut items = bytes.into_vec();
    items.reserve(room.saturating_sub(items.len()))?;
    Ok(items)
}
