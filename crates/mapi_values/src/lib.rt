//! The values of MAPI properties and what they are made of: text as UTF-16 units, values, properties.
//!
//! Promises: a `Units` is its list of numbers below 2^16; `fold` is simple case folding of its characters as `Characters` says; `parse_units` and `push_quoted` read and print text as `Spelling` says, and what is printed reads back as the same units. A `Value` has a length that its kind may have (`Values`), and a `Props` is a list of values that ascend strictly by id (`Properties`), found, put and removed as `Keyed` says of every list by a key.
//!
//! Leaves to others: which properties stand in which object, and how they lie in a file.
#![tactic(auto)]

mod characters;
mod column;
mod keyed;
mod message;
mod mirrors;
mod part;
mod props;
mod rows;
mod sizes;
mod spelling;
mod table;
pub mod tags;
mod units;
mod value;

pub use characters::{Character, split_character};
pub use column::{Column, cell_width, fixed_width, has_column, is_layout, suits_cell};
pub use keyed::{Keyed, drop_keyed, find_keyed, put_keyed};
pub use message::Message;
pub use mirrors::{cells_suit, mirror};
pub use part::Part;
pub use props::Props;
pub use rows::{drop_row, put_row};
pub use sizes::size;
pub use spelling::{BadEscape, parse_units, printed_reads_back, push_quoted};
pub use table::Table;
pub use units::Units;
pub use value::{Tag, Value, field_width, fits};
