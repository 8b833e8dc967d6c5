//! The subnodes of a node: at most 8 levels of nodes of its own, each with data and subnodes ([MS-PST] 2.2.2.8.3.3).
//!
//! `read_subs` gives the subnodes with their data, which is a tree of blocks that data_tree reads. `count_subs` looks at as much but for the data itself, and gives how many stand directly in the node, `read_sub_bids` gives the ids of the data blocks, and `read_sub_keys` the keys of all blocks that the subnodes reach. Each answers just what `Subnodes`, `Counts`, `Bids` and `Keys` say of the blocks that the source tells, and stops only by a fault, by the source, or by want of memory.
//!
//! `plan_subs` gives the blocks of a node's subnodes that are to be written, with their ids: wherever they are found the subnodes read back, and the ids of their data are those of the new blocks. With `plan_subs_keep` data blocks stay where they are, each with its own id at its position.
#![tactic(auto)]

mod bids;
mod blocks;
mod count;
mod entries;
mod kept;
mod keys;
mod law;
mod plan;
mod subs;
mod tables;
mod walk;

pub use bids::read_sub_bids;
pub use count::count_subs;
pub use kept::Kept;
pub use keys::read_sub_keys;
pub use law::{sub_bids_name_data, subs_stay_read};
pub use plan::{SubPlan, plan_subs, plan_subs_keep};
pub use subs::read_subs;
