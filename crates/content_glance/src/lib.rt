//! What a node's own data tells of the values of its property context ([MS-PST] 2.3.3) or of the rows of its table (2.3.4), without its subnodes.
//!
//! Promises: `glance_at` tells of one value, as `Tells` says: the value itself where the heap holds it, that there is none, or that its bytes stand in a subnode. `has_row_at` tells whether a table has a row, `look_for_row` the same of a heap of which some blocks are known, and `row_count_at` how many it has, without reading any (`TellsRow`, `TellsCount`). What they tell is so whatever the subnodes are, and so it is of a message's node (`told_of_message`).
//!
//! What the properties mean is left to others.
#![tactic(auto)]

mod content;
mod held;
mod law;
mod looking;
mod rows;

pub use content::{Glance, glance_at};
pub use heap_edit;
pub use law::told_of_message;
pub use looking::{Untold, look_for_row};
pub use rows::{has_row_at, row_count_at};
