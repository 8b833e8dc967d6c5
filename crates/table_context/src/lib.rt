//! The table context ([MS-PST] 2.3.4): columns and rows in a heap, a row matrix, and the subnodes beside it.
//!
//! Promises: `read_tc` gives the table that blocks and subnodes are, as `IsTableContext` says, exactly where they are one. A fault is the first of these: the blocks are no heap of tables (`Heap`); the header names a row index, which isn't a BTree of row ids and row numbers (`Bth`); anything else (`Tc`). A header names a row index where it begins as one and has the 22 bytes before the columns; whether it is in order after that comes later.
//!
//! Blocks and subnodes are at most one table, and none where there is a fault (`one_table`).
//!
//! Leaves to others: what the values mean, and writing.
#![tactic(auto)]

mod cells;
mod fault;
mod header;
mod kept;
mod law;
mod read;
mod rows;

pub use cells::has_cell;
pub use fault::TcFault;
pub use header::{columns, ends, names_index};
pub use law::one_table;
pub use read::{TABLE_CONTEXT, read_tc};
pub use rows::piece;
