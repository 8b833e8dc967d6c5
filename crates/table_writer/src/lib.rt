//! Writing a table context ([MS-PST] 2.3.4).
//!
//! Promises: `write_tc` gives blocks and subnodes that are the table it is given (`IsTableContext`), in blocks that are filled as far as they go (`PacksTight`), and takes no more of them than are asked for it (`table_space`); the ids of the subnodes ascend.
//!
//! Leaves to others: reading, and how much may be written.
#![tactic(auto)]

mod row;
mod value;
mod woven;
mod write;

pub use row::{no_marks, push_bits, put, zeros};
pub use table_context;
pub use write::write_tc;
