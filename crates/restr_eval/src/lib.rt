//! When a restriction holds of a message ([MS-OXCDATA] 2.12), and how many steps it takes to see.
//!
//! Promises: `eval` says what `Eval` says of the restriction and the message, takes no memory, and raises the steps by one for each restriction that it reaches, as `Steps` counts them: at most by `work`.
//!
//! Leaves to others: which messages are asked.
#![tactic(auto)]

mod content;
mod holding;
mod leaves;
mod orders;
mod text;
mod values;

pub use holding::eval;
pub use values::good_of;
