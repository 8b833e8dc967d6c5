//! One file of the system.
ghost use Rattle.std.specs.Prelude.{◌≤◌, length, IfOk};

use crate::trouble::Trouble;
use std::fs::{File, Files, OpenOptions, TryLockError};
use std::io::{self, ErrorKind};
use std::os::fd::AsRawFd;
use std::os::unix::fs::{FileExt, MetadataExt};
use std::path::Path;

/// The greatest descriptor of a standard stream.
const LAST_STREAM: i32 = 2;

/// What a world does with a file.
#[derive(Clone, Copy, Debug, PartialEq, Eq)]
pub enum Access {
    /// It is read alone: nothing is made, written or made stable, so a file on a medium that can't be written will do.
    Read,
    /// It is read and written.
    Write,
}

/// What is known of a file.
#[derive(Drop)]
enum Place {
    /// It wasn't looked for.
    Unseen,
    /// It wasn't there.
    Missing,
    /// It is open.
    Open(File),
}

/// A file of the system, opened at its first use and kept open.
#[derive(Drop)]
pub(crate) struct FilePart {
    path: Option<String>,
    access: Access,
    place: Place,
    /// Its lock is this world's, or the system has none.
    is_claimed: bool,
    /// It was made here, and its folder isn't synced yet.
    is_new: bool,
}

impl FilePart {
    pub(crate) fn new(path: Option<String>, access: Access) -> FilePart {
        FilePart {
            path,
            access,
            place: Place::Unseen,
            is_claimed: false,
            is_new: false,
        }
    }

    /// Whether it was looked for and wasn't there.
    pub(crate) fn is_missing(&self) -> bool {
        matches!(&self.place, Place::Missing)
    }

    /// Opens the file if it is there and isn't open. One that wasn't there stays so until it is made here.
    fn open<R: Files<File = File>>(&mut self, rt: &R) -> Result<(), Trouble> {
        if let Place::Unseen = &self.place {
            self.place = match &self.path {
                Some(path) => open_there(rt, path.as_str(), self.access)?,
                None => Place::Missing,
            };
        }
        Ok(())
    }

    /// Opens the file if it is there, and takes its lock.
    pub(crate) fn claim<R: Files<File = File>>(&mut self, rt: &R) -> Result<(), Trouble> {
        self.open(rt)?;
        if let Place::Open(file) = &self.place {
            if !self.is_claimed {
                take_lock(file, self.access)?;
                self.is_claimed = true;
            }
        }
        Ok(())
    }

    /// Whether what has its name by now is the open file of another part.
    pub(crate) fn names<R: Files<File = File>>(
        &self,
        rt: &R,
        other: &FilePart,
    ) -> Result<bool, Trouble> {
        let (Some(path), Place::Open(file)) = (&self.path, &other.place) else {
            return Ok(false);
        };
        let named = match rt.metadata(path.as_str()) {
            Ok(named) => named,
            Err(e) if e.kind() == ErrorKind::NotFound => return Ok(false),
            Err(e) => return Err(Trouble::System(e)),
        };
        let open = file.metadata()?;
        Ok(named.dev() == open.dev() && named.ino() == open.ino())
    }

    /// Makes the file if it isn't there, takes its lock, and makes its name stable. One that another program has made meanwhile isn't touched.
    pub(crate) fn make<R: Files<File = File>>(&mut self, rt: &R) -> Result<(), Trouble> {
        self.open(rt)?;
        if self.access == Access::Read {
            return Err(Trouble::System(ErrorKind::PermissionDenied.into()));
        }
        if let Place::Missing = &self.place {
            let Some(path) = &self.path else {
                return Err(Trouble::System(ErrorKind::NotFound.into()));
            };
            self.place = Place::Open(create(rt, path.as_str())?);
            self.is_new = true;
        }
        self.claim(rt)?;
        self.keep_name(rt)
    }

    /// Makes the name of a file that was made here stable.
    fn keep_name<R: Files<File = File>>(&mut self, rt: &R) -> Result<(), Trouble> {
        if let Some(path) = &self.path {
            if self.is_new {
                sync_folder(rt, path.as_str())?;
                self.is_new = false;
            }
        }
        Ok(())
    }

    pub(crate) fn len<R: Files<File = File>>(&mut self, rt: &R) -> Result<u64, Trouble> {
        self.open(rt)?;
        match &self.place {
            Place::Open(file) => Ok(file.metadata()?.len()),
            Place::Unseen | Place::Missing => Ok(0),
        }
    }

    pub(crate) fn read_at<R: Files<File = File>>(
        &mut self,
        rt: &R,
        at: u64,
        buf: &mut [u8],
    ) -> Result<usize, Trouble>
        ensures { IfOk result (λ n. n ≤ length buf.new) }
    {
        self.open(rt)?;
        match &self.place {
            Place::Open(file) => Ok(read_full(file, at, buf)?),
            Place::Unseen | Place::Missing => Ok(0),
        }
    }

    pub(crate) fn write_at<R: Files<File = File>>(
        &mut self,
        rt: &R,
        at: u64,
        bytes: &[u8],
    ) -> Result<(), Trouble> {
        self.make(rt)?;
        match &self.place {
            Place::Open(file) => Ok(file.write_all_at(bytes, at)?),
            Place::Unseen | Place::Missing => Err(Trouble::System(ErrorKind::NotFound.into())),
        }
    }

    /// Makes the file stable, with its name where it was made here. One that isn't there is so.
    pub(crate) fn sync<R: Files<File = File>>(&mut self, rt: &R) -> Result<(), Trouble> {
        self.open(rt)?;
        match &self.place {
            Place::Open(file) => file.sync_all()?,
            Place::Unseen | Place::Missing => return Ok(()),
        }
        self.keep_name(rt)
    }
}

/// Opens a file, or tells that there is none. Where it is to be written, what an earlier program has left in the system's buffers is made stable first.
fn open_there<R: Files<File = File>>(rt: &R, path: &str, access: Access) -> Result<Place, Trouble> {
    match rt.metadata(path) {
        Ok(found) if found.is_dir() => return Err(Trouble::System(ErrorKind::IsADirectory.into())),
        Ok(found) if !found.is_file() => return Err(Trouble::NoFile),
        Ok(_) => {}
        Err(e) if e.kind() == ErrorKind::NotFound => return Ok(Place::Missing),
        Err(e) => return Err(Trouble::System(e)),
    }
    let writes = access == Access::Write;
    let file = OpenOptions::new().read(true).write(writes).open(rt, path)?;
    let file = off_streams(file)?;
    if writes {
        file.sync_all()?;
    }
    Ok(Place::Open(file))
}

/// Makes a file, which isn't there.
fn create<R: Files<File = File>>(rt: &R, path: &str) -> io::Result<File> {
    let file = OpenOptions::new()
        .read(true)
        .write(true)
        .create_new(true)
        .open(rt, path)?;
    off_streams(file)
}

/// The same file under a descriptor that no standard stream has. Where one of these is closed the system gives its descriptor to the next file, which would then be taken for input, or be overwritten by what is said.
fn off_streams(file: File) -> io::Result<File> {
    if file.as_raw_fd() > LAST_STREAM {
        Ok(file)
    } else {
        file.try_clone()
    }
}

/// Takes a file's lock: for this world alone where it is to be written, else beside others that read. Where the system has no locks for such a file there is nothing to take.
fn take_lock(file: &File, access: Access) -> Result<(), Trouble> {
    let taken = match access {
        Access::Read => file.try_lock_shared(),
        Access::Write => file.try_lock(),
    };
    match taken {
        Ok(()) => Ok(()),
        Err(TryLockError::WouldBlock) => Err(Trouble::Busy),
        Err(TryLockError::Error(e)) if e.kind() == ErrorKind::Unsupported => Ok(()),
        Err(TryLockError::Error(e)) => Err(Trouble::System(e)),
    }
}

/// Makes the names in the folder of a file stable.
fn sync_folder<R: Files<File = File>>(rt: &R, path: &str) -> io::Result<()> {
    match Path::new(path).parent() {
        Some(folder) if !folder.as_str().is_empty() => File::open(rt, folder)?.sync_all(),
        _ => File::open(rt, ".")?.sync_all(),
    }
}

/// Reads until the buffer is full or the file ends.
fn read_full<F: FileExt>(file: &F, at: u64, buf: &mut [u8]) -> io::Result<usize>
    ensures { IfOk result (λ n. n ≤ length buf.new) }
{
    let mut done = 0;
    while done < buf.len() {
        let n = file.read_at(&mut buf[done..], at.saturating_add(done as u64))?;
        if n == 0 {
            break;
        }
        done += n;
    }
    Ok(done)
}
