//! What a world in memory records of its disk and its output, in order.
use crate::Part;
use pst_base::Bytes;

/// One call that changed the disk or said something.
#[derive(Debug, Drop)]
pub enum Event {
    /// A write: its part, its place and its bytes.
    Wrote(Part, u64, Bytes),
    /// A write that failed: its part, its place and its length.
    Lost(Part, u64, u64),
    /// A sync of a part that succeeded.
    Synced(Part),
    /// Bytes that were said.
    Said(Bytes),
}
