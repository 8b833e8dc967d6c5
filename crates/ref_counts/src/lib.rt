//! How often each block of a file is referred to, as a keeper of the file knows it.
//!
//! `RefCounts` is a table of numbers by keys, 0 for a key that isn't there. It is counted from the keys that the nodes of a file reach, it says which numbers change where some references are taken and others put, and it takes such changes: `make_room` needs memory and leaves all numbers, `adopt` puts the numbers and needs none.
//!
//! Leaves to others: which keys a node reaches, and what is done with a block whose number falls to 0.
#![tactic(auto)]

mod entries;
mod table;

pub use table::{RefChange, RefCounts};
