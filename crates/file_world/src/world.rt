//! The world over files, standard input and standard output.
ghost use Rattle.std.specs.Prelude.{◌≡◌, ◌+◌, ◌-◌, ◌^◌, ◌≤◌, min, IfOk};

use crate::disk::Disk;
use crate::front::Front;
use crate::part::Access;
use crate::progress::Progress;
use crate::trouble::{Cause, Device, Trouble};
use pst_outside::{Failed, Outside, Part, fault};
use std::alloc::AllocError;
use std::fs::{File, Files};
use std::io::{Eprint, ErrorKind, Input, Print, Read};
use std::time::Clock;

/// The files MAIN, MAIN with `.gate` added, and COPY, and standard input and output. A missing file has length 0 and is made at its first write, unless another program made it meanwhile. It counts each error of the system and keeps the last, and tells contracts its counts alone.
///
/// With its first call on the disk it takes the system's advisory lock of MAIN, for as long as it lives: for itself where MAIN is to be written, and beside others that read where it is to be read. Where another holds it, each call on the disk fails, and nothing is read or written.
#[derive(Drop)]
pub struct FileWorld<R: Files<File = File> + Input> {
    rt: R,
    input: R::Reader,
    disk: Disk<R>,
    front: Front,
    progress: Progress,
    cause: Option<Cause>,
    in_faults: u64,
    out_faults: u64,
    disk_faults: u64,
    written: u128,
}

/// Counts a failed call, and keeps why it failed.
fn noted(cause: &mut Option<Cause>, count: &mut u64, device: Device, trouble: Trouble) -> Failed
    ensures raised { count.new ≡ min (count.old + 1) (2 ^ 64 - 1) }
    ensures no_fall { count.old ≤ count.new }
{
    *cause = Some(Cause { device, trouble });
    fault(count)
}

/// Whether what was written is the byte by which a commit's header counts.
fn opens_gate(part: Part, at: u64, bytes: &[u8]) -> bool {
    part == Part::Side && at == 0 && matches!(bytes, [1])
}

impl<R: Files<File = File> + Input + Print + Eprint + Clock + AllocGlobal + Copy> FileWorld<R> {
    ghost use Rattle.pst_outside.specs.Memory.{NoFaults};

    /// A world over the file of this name, with its gate beside it, both for this access, and over the file of a copy. No file is touched yet. Without a name for the copy, its part has length 0 and a write to it fails.
    pub fn new(
        rt: R,
        main: String,
        copy: Option<String>,
        access: Access,
    ) -> Result<FileWorld<R>, AllocError>
        ensures { IfOk result (λ w. NoFaults (⟦<FileWorld<R> as Outside>⟧.view w)) }
    {
        let mut side = String::new(rt.alloc());
        side.push_str(main.as_str())?;
        side.push_str(".gate")?;
        let input = rt.reader();
        let disk = Disk::new(rt, main, side, copy, access);
        Ok(FileWorld {
            rt,
            input,
            disk,
            front: Front::new(),
            progress: Progress::new(),
            cause: None,
            in_faults: 0,
            out_faults: 0,
            disk_faults: 0,
            written: 0,
        })
    }

    /// The last call that failed, if one did.
    pub fn cause(&self) -> Option<&Cause> {
        self.cause.as_ref()
    }

    /// From here on standard error says once a second how many bytes were written to the copy.
    pub fn show_copied(&mut self) {
        self.progress.show_copied();
    }

    /// From here on standard error says once a second how many messages of a large input were made, and how many in a second.
    pub fn show_messages(&mut self) {
        self.progress.show_messages();
    }

    /// Whether MAIN was looked for and wasn't there.
    pub fn is_missing(&self) -> bool {
        self.disk.is_missing()
    }

    /// The first bytes that were said, at most 64.
    pub fn front(&self) -> &[u8] {
        self.front.as_slice()
    }
}

impl<R: Files<File = File> + Input + Print + Eprint + Clock + AllocGlobal + Copy> Outside
    for FileWorld<R> {
    ghost use Rattle.pst_outside.specs.Sure.{silent};

    ghost view = { λ w. silent w.in_faults w.out_faults w.disk_faults w.written };

    fn take(&mut self, buf: &mut [u8]) -> Result<usize, Failed> {
        match self.input.read(buf) {
            Ok(n) => Ok(n),
            Err(error) => {
                let trouble = Trouble::System(error);
                Err(noted(&mut self.cause, &mut self.in_faults, Device::Input, trouble))
            }
        }
    }

    fn say(&mut self, piece: &[u8]) -> Result<usize, Failed> {
        self.progress.end(&self.rt);
        let trouble = match self.rt.write_some(piece) {
            Ok(0) if !piece.is_empty() => Trouble::System(ErrorKind::WriteZero.into()),
            Ok(n) => {
                self.front.add(&piece[..n]);
                return Ok(n);
            }
            Err(error) => Trouble::System(error),
        };
        Err(noted(
            &mut self.cause,
            &mut self.out_faults,
            Device::Output,
            trouble,
        ))
    }

    fn len(&mut self, part: Part) -> Result<u64, Failed> {
        match self.disk.len(part) {
            Ok(n) => Ok(n),
            Err(trouble) => {
                let device = Device::Disk(part);
                Err(noted(&mut self.cause, &mut self.disk_faults, device, trouble))
            }
        }
    }

    fn read_at(&mut self, part: Part, at: u64, buf: &mut [u8]) -> Result<usize, Failed> {
        match self.disk.read_at(part, at, buf) {
            Ok(n) => Ok(n),
            Err(trouble) => {
                let device = Device::Disk(part);
                Err(noted(&mut self.cause, &mut self.disk_faults, device, trouble))
            }
        }
    }

    fn write_at(&mut self, part: Part, at: u64, bytes: &[u8]) -> Result<(), Failed> {
        self.written = self.written.saturating_add(bytes.len() as u128);
        match self.disk.write_at(part, at, bytes) {
            Ok(()) => {
                if part == Part::Copy {
                    self.progress.add_copied(&self.rt, bytes.len());
                } else if opens_gate(part, at, bytes) {
                    self.progress.add_commit(&self.rt);
                }
                Ok(())
            }
            Err(trouble) => {
                self.progress.end(&self.rt);
                let device = Device::Disk(part);
                Err(noted(&mut self.cause, &mut self.disk_faults, device, trouble))
            }
        }
    }

    fn sync(&mut self, part: Part) -> Result<(), Failed> {
        self.progress.end_copy(&self.rt);
        match self.disk.sync(part) {
            Ok(()) => Ok(()),
            Err(trouble) => {
                let device = Device::Disk(part);
                Err(noted(&mut self.cause, &mut self.disk_faults, device, trouble))
            }
        }
    }
}
