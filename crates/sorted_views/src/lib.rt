//! The rows of a table sorted and grouped by one column.
//!
//! Promises: `sorts_by` tells the columns that rows can be sorted by; `sort_rows` gives the rows of these ids, each with its key, in the order of keys and then of ids, or that order reversed (`IsSortedView`); `split_group` cuts the first run of equal keys off, so that the runs are the groups (`groups`). A key is that of a cell whose length fits its kind (`IsKey`); cells are ordered as restrictions on properties order them ([MS-OXCDATA] 2.12.5), text after simple folding of its case, and a row without a key comes before all others.
//!
//! Leaves to others: which rows there are, and where the table stands.
#![tactic(auto)]

mod groups;
mod key;
mod rows;

pub use groups::split_group;
pub use key::Key;
pub use rows::{Direction, ViewRow, cell_of, sort_rows, sorts_by};
