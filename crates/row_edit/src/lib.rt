//! The bytes of one row of a table ([MS-PST] 2.3.4.4) once its cells have other values, in the heap of the table as it stands.
//!
//! Promises: `edited_row` gives bytes that read as the row of the new values (`EditsRow`). A value that stands in the heap already keeps its heap id, one that doesn't is added, and what was found before is found still. It stops where a value needs a subnode, or had one.
//!
//! Leaves to others: where the row stands, and where the heap's items do.
#![tactic(auto)]

mod edit;
mod ids;
mod lay;
mod pick;
mod stop;

pub use edit::edited_row;
pub use stop::RowStop;
