//! The bytes that ids of heap items and of subnodes name in a node ([MS-PST] 2.3.3.2).
//!
//! Promises: a `Finder` finds the subnodes of a node by their ids, as `subnode` and `data_of` say of the flat list, and leaves some out, as `without` says. `named_bytes` gives the bytes that an id names, as `named` says. `cut` makes the blocks of a long value's subnode, as `pieces` says.
//!
//! Leaves to others: what the bytes mean, and which ids stand where.
#![tactic(auto)]

mod finder;
mod named;
mod order;

pub use finder::{Finder, copy_sub};
pub use named::{Absent, cut, named_bytes};
pub use order::ids_ascend;
