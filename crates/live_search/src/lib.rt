//! What a change of a message does to what a search lists.
//!
//! Promises: `touch` says what `delta` says of whether the restriction held of the message as it was and whether it holds of it as it is, takes no memory, and looks at no other message: its steps are those of both, at most their work.
//!
//! Leaves to others: which messages a change touches, whose folders a search is about, and the list itself.
#![tactic(auto)]

mod touching;

pub use touching::{Delta, touch};
