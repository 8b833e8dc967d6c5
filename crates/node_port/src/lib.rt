//! The port between the store and what keeps its nodes.
//!
//! A keeper tells which nodes it holds over a world (`holds`), by their ids. Promises: `get` and `next_after` answer just those nodes and change nothing, `prepare` changes no node, and `apply` makes the nodes and the counts those of the changes, and nothing else; a stop at any moment of `apply` leaves a disk that stands for the nodes from before or for those after (`any_moment`), and of `save` for the same nodes; each stop has its cause (`Stops`). `MapKeeper` keeps the nodes in memory, makes no call on the world, and stops for want of memory alone.
//!
//! A `Pinner` pins the nodes of a moment: a pin tells them whatever is changed later, and each call leaves what pins tell (`pinned`). What is pinned is no part of what the disk stands for.
//!
//! What a keeper holds depends on the disk alone, and not on what was said (`holds_on`, `stands_on`, `rests_on`); the disk stands for what is held (`held_stands`) and has the room that the keeper tells (`held_measures`).
//!
//! Leaves to others: what nodes mean, what a disk stands for, and which contents a file can hold.
#![tactic(auto)]

mod keeper;
mod map_keeper;
mod node;
mod pinner;
mod slots;

pub use keeper::{KeepStop, Keeper, NodeReader, PrepareStop, Saver};
pub use map_keeper::{MapKeeper, MapReady};
pub use node::{Changes, Counts, NodeBlock, NodeRec};
pub use pinner::{Pinner, PinsFull};
