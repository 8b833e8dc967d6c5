//! Edits of the row index of a table: a BTree on a heap ([MS-PST] 2.3.2) whose keys, the row ids, and entries, the row numbers, have 4 bytes.
//!
//! Promises: `find_entry` looks at the items on the way to one leaf. `put_record` and `drop_record` copy that way with one record put or left out: they add a leaf or two, the inner item above it where there is one, and a header, which `HasIndex` says to read as the records then. What was found before is found still.
//!
//! Leaves to others: what the rows are, and where the heap's items stand.
#![tactic(auto)]

mod bytes;
mod find;
mod inner;
mod leaf;
mod leave;
mod pairs;
mod put;
mod reach;
mod stop;

pub use find::find_entry;
pub use leave::drop_record;
pub use put::put_record;
pub use stop::IndexStop;
