//! The pieces of a file that a commit writes.
//!
//! Promises: `seal_pages` gives the new pages of a tree, each sealed under the id and for the place that `named` gives its number, so that they show what was planned (`AreWritten`). `seal_blocks` gives new blocks with their entries (`AreSealed`), for places of the sizes that `slots_of_blocks` names. `growth` gives just the pieces of `growth_of`, by which a file ends at the end of a later region.
//!
//! Laws for those who join these with a file: the places of pieces are whole and those that were planned (`pages-whole`, `blocks-whole`, `names-placed`, `laid-placed`), and the file reaches its new end (`reaches-end`).
//!
//! Leaves to others: which pages and blocks are new, their numbers, the choice of places, and the calls that write.
#![tactic(auto)]

mod blocks;
mod names;
mod pages;
mod regions;

pub use blocks::{seal_blocks, slots_of_blocks};
pub use names::resolve_child;
pub use pages::seal_pages;
pub use regions::growth;
