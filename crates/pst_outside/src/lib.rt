//! The outside: input, output and the three parts of the disk as one trait, `Outside`, with the worlds that stand behind it.
//!
//! Promises: each call keeps the contract that the trait states over the world that `view` gives (`World`, and the words of `Calls`): what is held and said, the counts of faults, and what a crash at any moment may leave. `Moments` and `Bytes` have the lemmas by which callers join these facts.
//! Leaves to others: what the bytes mean, and in which order they are written.
#![tactic(auto)]

mod crash;
mod helpers;
mod input;
mod memory;
mod outside;
mod parts;
mod record;
mod sure;

pub use crash::Pick;
pub use helpers::{read_part, say_all};
pub use memory::{FailPlan, MemWorld, fault};
pub use outside::{Failed, Outside, Part};
pub use sure::SureWorld;
