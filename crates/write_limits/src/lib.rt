//! What a command may write: the limits on tables and on the subnodes directly in a node, and the blocks for which an object asks that is written.
//!
//! Promises: `props_fit`, `table_fits` and `message_fits` answer as `Limits` says. `props_space`, `table_space`, `kept_space` and `message_space` give the numbers of `Space`, up to 2^60.
//!
//! Leaves to others: the limits on what a command may bring an object to, the form of kept subnodes, that what is written stays within its room, and which objects a command touches.
#![tactic(auto)]

mod counts;
mod fit;
mod objects;
mod sums;
mod values;

pub use fit::{message_fits, props_fit, table_fits};
pub use objects::{message_space, props_space, table_space};
pub use sums::{MOST, add, kept_space};
