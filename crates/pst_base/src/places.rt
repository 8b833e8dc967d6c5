//! Places in the file.

/// A range of bytes of the file: where it begins, and how many bytes it has.
#[derive(Clone, Copy, Debug, PartialEq, Eq)]
pub struct Place {
    pub ib: u64,
    pub len: u64,
}
