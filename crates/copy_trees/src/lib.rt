//! The pages of a copy's trees: planned, and written.
//!
//! Promises: `plan_tree` gives a tree of so many entries its pages, level by level in as few as it takes, one behind the other (`IsPlanned`). `put_tree` writes them into Copy alone (`AddsTree`). Pages that show so what was written are a packed tree (`written-packed`).
//!
//! Leaves to others: which entries there are, and what the copy is with both trees.
#![tactic(auto)]

mod level;
mod planning;
mod putting;

pub use level::Level;
pub use planning::{TreePages, plan_tree};
pub use putting::put_tree;
