//! The two encodings of a block's data ([MS-PST] 5.1, 5.2), which hide it from a glance and give no security.
//!
//! Promises: `decode` makes of a block's bytes in place just what `decoded` says, and `Encoding` has the laws that `encoded` is its inverse.
//!
//! Which blocks of a file are encoded, and how, is left to others.
#![tactic(auto)]

mod decoding;
mod tables;

pub use decoding::{Method, decode};
