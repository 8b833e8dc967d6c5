//! Why a call on the system failed.
use pst_outside::Part;
use std::fmt::{self, Display, Formatter, Write};
use std::io;

/// What a call was made on.
#[derive(Clone, Copy, Debug, PartialEq, Eq)]
pub enum Device {
    Input,
    Output,
    Disk(Part),
}

/// Why a call failed.
#[derive(Debug, Drop)]
pub enum Trouble {
    /// Another session holds the file's lock.
    Busy,
    /// It is the gate of the store, to which nothing is copied.
    Gate,
    /// What has that name is no file of bytes, but a pipe, say.
    NoFile,
    /// What the system says.
    System(io::Error),
}

/// The last call that failed.
#[derive(Debug, Drop)]
pub struct Cause {
    pub device: Device,
    pub trouble: Trouble,
}

impl From<io::Error> for Trouble {
    fn from(error: io::Error) -> Trouble {
        Trouble::System(error)
    }
}

impl Display for Trouble {
    fn fmt<W: Write>(&self, f: &mut Formatter<W>) -> fmt::Result {
        match self {
            Trouble::Busy => f.write_str("another session is at work on it"),
            Trouble::Gate => f.write_str("it is the gate of the store that is copied"),
            Trouble::NoFile => f.write_str("it is no file of bytes"),
            Trouble::System(error) => Display::fmt(error, f),
        }
    }
}
