//! Items of a heap, found by their ids and added: what edits of a table ask of the heap that it stands in.
//!
//! Leaves to others: where the items stand.
#![tactic(auto)]

mod items;

pub use items::HeapItems;
