//! The trusted edge: input, output and the disk as the system has them.
//!
//! Promises: `FileWorld` keeps the contract of `Outside` over its counts of faults, which is all that it tells.
//! Leaves to others: what the bytes mean. That the system does what the disk model says is tested, not proved.
#![tactic(auto)]

mod disk;
mod front;
mod part;
mod progress;
mod trouble;
mod world;

pub use part::Access;
pub use trouble::{Cause, Device, Trouble};
pub use world::FileWorld;
