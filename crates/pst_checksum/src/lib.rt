//! The checksum and the signature that pages, blocks and the header carry.
//!
//! Promises: `crc` is the register of `Crc`, bit by bit, and `sig` is `sig_of`.
//!
//! Leaves to others: which bytes they are taken of.
#![tactic(auto)]

mod checksum;
mod tables;

pub use checksum::{crc, sig};
