//! A copy of a file without holes.
//!
//! Promises: `compact` writes into Copy, and into it alone (`KeepsSource`), a file of the same nodes whose blocks and pages stand one behind the other (`IsCompacted`), and makes it stable. Where it would be larger than a file may be, it says so before anything is written (`IsTooLarge`).
//!
//! Leaves to others: whether the file is whole, and what a stop leaves of Copy.
#![tactic(auto)]

mod compacting;
mod finding;
mod placing;
mod planning;
mod rising;
mod source;
mod writing;

pub use compacting::compact;
pub use copy_pieces::CompactStop;
pub use source::Source;
