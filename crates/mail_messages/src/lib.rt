//! The commands on messages.
//!
//! Promises: each command of `on_desk` answers what the definition of its command in mail_tree says of every tree that the desk shows, and only looks at the nodes; what changes stands in the desk's draft.
//!
//! Leaves to others: carrying the changes out.
#![tactic(auto)]

mod adding;
mod changes;
mod copying;
mod details;
mod ending;
mod find;
mod giving;
mod mails;
mod making;
mod moving;
pub mod on_desk;
mod reading;
mod removing;
mod values;

pub use copying::is_overfull;
pub use details::rows_of;
pub use ending::Ending;
pub use mail_names;
pub use mails::{finished, with_value, without_value};
pub use reading::{details_reply, reply_of, tell_value};
pub use values::{check_set, check_unset};
