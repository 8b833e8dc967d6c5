//! Tests as lines of text: the words of a line, and files of rows, each of which asks something and says the answer that is wanted.
//!
//! Promises: a row whose answer isn't the one that it says is counted, and so is a line that isn't understood.
//!
//! Leaves to others: what rows can ask.
#![tactic(auto)]

mod report;
mod rows;
mod spelling;
mod trouble;
mod words;

pub use report::{Report, Tally};
pub use rows::{Answerer, play_all};
pub use spelling::{push_bytes, read_bytes};
pub use trouble::Trouble;
pub use words::{Words, hex_number, number};
