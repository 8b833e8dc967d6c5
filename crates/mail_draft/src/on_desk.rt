//! The store's functions over a desk.

mod outcomes;
mod rows;
mod settle;
mod touch;
mod unread;

pub use outcomes::{changing, making, replying};
pub use rows::{add_shown, drop_shown, put_shown};
pub use settle::{mirrored, put_context, settled, settled_at};
pub use touch::touched;
