//! The data of a node or a subnode: one block, or a tree of blocks that name others ([MS-PST] 2.2.2.8.3.2).
//!
//! `BlockSource` is where blocks come from: contracts see which blocks it tells, and two counts, of its failures and of what it found changed. One with `BlockSizes` also knows how long its blocks are. `read_bids` gives the ids of a tree's data blocks, `read_data` their bytes, `read_single` one of them and how many there are, and `measure_data` how many those are; all answer just what `Tree` and `Measure` say of the blocks that the source tells, and stop only by a fault of the tree, by the source, or by want of memory.
//!
//! `plan_data` gives the blocks of a tree that is to be written, with their ids: they are just those that `Plan` lays out, and wherever they are found the tree reads as its data.
//!
//! Which blocks a file has, and whether each is whole, is the source's concern.
#![tactic(auto)]

mod data;
mod keys;
mod law;
mod listing;
mod measure;
mod memory;
mod plan;
mod single;
mod source;
mod tree;

pub use data::read_data;
pub use keys::read_data_keys;
pub use law::{bids_name_data, stays_read};
pub use measure::measure_data;
pub use memory::BlockList;
pub use plan::{DataPlan, last_id, plan_data, plan_data_keep};
pub use single::read_single;
pub use source::{BlockSizes, BlockSource, TreeStop, fetch};
pub use tree::read_bids;
