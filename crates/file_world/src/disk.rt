//! The three parts of the disk.
ghost use Rattle.std.specs.Prelude.{◌≤◌, length, IfOk};

use crate::part::{Access, FilePart};
use crate::trouble::Trouble;
use pst_outside::Part;
use std::fs::{File, Files};

/// The files of a world. The first call on any of them takes the lock of the first.
#[derive(Drop)]
pub(crate) struct Disk<R> {
    rt: R,
    main: FilePart,
    side: FilePart,
    copy: FilePart,
    /// The copy was seen to be another file than the gate.
    is_apart: bool,
}

impl<R: Files<File = File>> Disk<R> {
    /// The files of these names: the store's and its gate's for this access, and that of a copy to be written.
    pub(crate) fn new(
        rt: R,
        main: String,
        side: String,
        copy: Option<String>,
        access: Access,
    ) -> Disk<R> {
        Disk {
            rt,
            main: FilePart::new(Some(main), access),
            side: FilePart::new(Some(side), access),
            copy: FilePart::new(copy, Access::Write),
            is_apart: false,
        }
    }

    /// Makes the file of the copy if it isn't there, unless its name leads to the gate of the store, which a copy would spoil. One that leads to the store's file has bytes, so nothing is copied to it.
    fn make_copy(&mut self) -> Result<(), Trouble> {
        if !self.is_apart {
            self.copy.make(&self.rt)?;
            if self.side.names(&self.rt, &self.copy)? {
                return Err(Trouble::Gate);
            }
            self.is_apart = true;
        }
        Ok(())
    }

    /// Whether the store's file was looked for and wasn't there.
    pub(crate) fn is_missing(&self) -> bool {
        self.main.is_missing()
    }

    pub(crate) fn len(&mut self, part: Part) -> Result<u64, Trouble> {
        self.main.claim(&self.rt)?;
        match part {
            Part::Main => self.main.len(&self.rt),
            Part::Side => self.side.len(&self.rt),
            Part::Copy => self.copy.len(&self.rt),
        }
    }

    pub(crate) fn read_at(&mut self, part: Part, at: u64, buf: &mut [u8]) -> Result<usize, Trouble>
        ensures { IfOk result (λ n. n ≤ length buf.new) }
    {
        self.main.claim(&self.rt)?;
        match part {
            Part::Main => self.main.read_at(&self.rt, at, buf),
            Part::Side => self.side.read_at(&self.rt, at, buf),
            Part::Copy => self.copy.read_at(&self.rt, at, buf),
        }
    }

    pub(crate) fn write_at(&mut self, part: Part, at: u64, bytes: &[u8]) -> Result<(), Trouble> {
        self.main.claim(&self.rt)?;
        match part {
            Part::Main => self.main.write_at(&self.rt, at, bytes),
            Part::Side => self.side.write_at(&self.rt, at, bytes),
            Part::Copy => {
                self.make_copy()?;
                self.copy.write_at(&self.rt, at, bytes)
            }
        }
    }

    pub(crate) fn sync(&mut self, part: Part) -> Result<(), Trouble> {
        self.main.claim(&self.rt)?;
        match part {
            Part::Main => self.main.sync(&self.rt),
            Part::Side => self.side.sync(&self.rt),
            Part::Copy => self.copy.sync(&self.rt),
        }
    }
}
