//! What case files say, apart from running the program: their lines and what these make, the world that a case asks for, and the difference between what came of it and what must.
//!
//! It stands below the session whose cases they are, so that it is proved beside it. `crates/cases/data/README.md` has the grammar.
#![tactic(auto)]

mod case;
mod edits;
mod left;
mod outcome;
mod report;
mod script;
mod texts;
mod world;

pub use case::Case;
pub use left::{BadStop, Cut, Left, begun, outcomes};
pub use outcome::{Change, Ending, Outcome};
pub use report::{Report, Tally};
pub use script::Script;
pub use world::{CaseWorld, Turn};
