//! Tables that get columns: how their rows are laid out then ([MS-PST] 2.3.4.1).
//!
//! Promises: `completed` gives a table the columns that it lacks, and leaves its rows as they are, as `Layout` says. Columns that are there stay; if one is added, all but the row id and the row version get new places.
//!
//! Leaves to others: which columns a table is to have, and what stands in its rows.
#![tactic(auto)]

mod columns;
mod places;

pub use columns::{completed, has_columns};
