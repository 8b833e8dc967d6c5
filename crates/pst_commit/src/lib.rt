//! The keeper of the nodes that a file holds, and how a commit goes into the file.
//!
//! A commit writes its pieces beside all that stands, syncs the file, and then puts the new header in the place of the old one through the gate: five syncs. Promises: a stop at any moment of `apply_pieces` leaves a file that stands for the nodes from before or for those after (`any_moment`), and one within `save` or `close_gate` the same nodes. `FileKeeper` is a keeper over any `NodeStore`, which reads the nodes and plans the changes; what it holds is said of the two files alone (`Holds`), whatever the gate. Its `save` writes the map pages exactly, with the header that vouches for them last (`IsSaved`).
//! Its pins tell the nodes of the moment when each was made, through any later commits and saves (`Pinned`).
//!
//! Leaves to others: which places a plan takes and what its pages say (`NodeStore`), and how a file is opened.
#![tactic(auto)]

mod apply;
mod keeper;
mod opening;
mod pins;
mod save;
mod store;
mod writes;

pub use apply::apply_pieces;
pub use keeper::FileKeeper;
pub use opening::close_gate;
pub use save::{last_map, write_maps};
pub use store::{CommitPlan, NodeStore, Pin};
pub use writes::write_pieces;
