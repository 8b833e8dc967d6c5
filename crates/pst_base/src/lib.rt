//! What every layer of the store speaks of: ids, places, numbers in bytes, lists of bytes, of blocks and of subnodes, and the answers that many crates give.
//!
//! Promises: ids are taken apart and put together as `Ids` says; a number in bytes is `number_at` of them and is written as `replaced` says; a `Bytes` is its list of bytes, a `Blocks` its list of lists, a `Subs` its flat list of `Flat`s.
//!
//! Leaves to others: what the bytes of a page or a block mean.
#![tactic(auto)]

mod blocks;
mod bytes;
mod fields;
mod ids;
mod places;
mod steps;
mod stops;
mod subs;

pub use blocks::Blocks;
pub use bytes::Bytes;
pub use fields::{part, put_u8, put_u16, put_u32, put_u64, u8_at, u16_at, u32_at, u64_at};
pub use ids::{Bid, Bref, Nid, make_nid};
pub use places::Place;
pub use steps::{Ledger, Steps};
pub use stops::{MemOr, PageFault, SourceStop};
pub use subs::{Sub, Subs};
