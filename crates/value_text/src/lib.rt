//! The text of values: how a value is written in a line, and how it is printed.
//!
//! Promises: `parse_value` gives the value that `Forms` says a text says, or refuses the text exactly where it says none; `value_text` gives the text that `Forms` says of a value.
//!
//! Leaves to others: which values stand in which object.
#![tactic(auto)]

mod hex;
mod numbers;
mod printing;
mod reading;
mod unit_bytes;

pub use hex::{push_hex, read_hex};
pub use numbers::{magnitude, push_signed};
pub use printing::value_text;
pub use reading::parse_value;
pub use unit_bytes::{bytes_of_units, units_of_bytes};

/// A text that isn't a value of the kind.
#[derive(Clone, Copy, Debug, PartialEq, Eq)]
pub struct BadValue;
