//! Edits of a node's data blocks of which some are known, and of the heap ([MS-PST] 2.3.1) that stands in them.
//!
//! Promises: `KnownBlocks` gives a block where it is put or known, and else says which one it lacks; what it promises holds of all blocks that agree with the known ones (`AreKnown`), of which `blocks_now` are those after the edit. `KnownHeap` finds items by their ids, adds items (`Adds`) and sets the heap's root (`SetsRoot`): no item is changed, freed or moved, each block that it puts is plain, and there is at most one block more for an item. `DataEdit` is what is left to write: the blocks that are put at their positions (`edited`).
//!
//! Leaves to others: where the blocks come from, and what the items mean.
#![tactic(auto)]

mod block;
mod blocks;
mod edit;
mod heap;
mod placed;
mod stops;

pub use blocks::KnownBlocks;
pub use edit::DataEdit;
pub use heap::KnownHeap;
pub use stops::{HeapStop, Lacks};
