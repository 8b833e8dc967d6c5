//! Restrictions, which say what a search asks of a message, and their bytes ([MS-OXCDATA] 2.12).
//!
//! Promises: a `Restriction` is a `Restr` for contracts. `write` gives the `spelling` of one that has a spelling. `read` gives a restriction exactly where the bytes are the spelling of one, and else the offset of the first fault by `Reading`.
//!
//! Leaves to others: when a restriction holds of a message.
#![tactic(auto)]

mod fields;
mod leaves;
mod reading;
mod restriction;
mod values;
mod writing;

pub use reading::{BadRestriction, read, written_reads_back};
pub use restriction::{BitTest, Form, FuzzyFlags, FuzzyLevel, Relation, Restriction, SubTable};
pub use values::value_width;
pub use writing::write;
