//! What changes of nodes come to as new blocks and as edits of the node tree, planned in memory from a file that is read on demand.
//!
//! `plan_contents` reads what the changed nodes are now, gives new blocks the next ids in order, and lets a data block stay where its bytes and its position stay. Promises (`PlansContents`): in each file that has the new blocks and those that stay, the edited entries lead to the nodes put, and reach just the keys that the plan counts; of the data of nodes and subnodes just the blocks whose bytes and position stay keep their ids, each at its position; over a world that tells a file which lays nodes each stop has its cause; nothing is written.
//!
//! Leaves to others: which header counts, places for the blocks, and the pages of both trees.
#![tactic(auto)]

mod content;
mod form;
mod keep;
mod matching;
mod node;
mod plan;
mod put;
mod read;

pub use plan::{ContentPlan, plan_contents};
