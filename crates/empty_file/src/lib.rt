//! A file without nodes, from which a keeper commits the nodes of a new store.
//!
//! Promises: `lay_empty` lays a file where there is none, which opens with its header, lays no node and stands behind a shut gate (`IsFound`). Where Main or Side has bytes, it writes nothing.
//!
//! Leaves to others: the nodes of a new store, and what a stop while the file is laid leaves, which is no file yet.
#![tactic(auto)]

mod found;
mod laying;
mod parts;

pub use laying::{LayStop, lay_empty};
