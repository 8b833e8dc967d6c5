//! The commands on folders.
//!
//! Promises: each command of `on_desk` answers what the definition of its command in mail_tree says of every tree that the desk shows, and only looks at the nodes; what changes stands in the desk's draft.
//!
//! Leaves to others: carrying the changes out.
#![tactic(auto)]

mod desk;
mod ending;
mod finding;
mod list;
mod making;
mod moving;
mod names;
pub mod on_desk;
mod on_keeper;
mod protecting;
mod reading;
mod removing;
mod renaming;
mod standing;

pub use desk::{FolderDesk, FolderMakingDesk};
pub use finding::{folder_in, plain_in};
pub use list::listed;
pub use making::folder_props;
pub use reading::{context_in, is_taken, message_in, table_in};
pub use standing::{unless_deep, unless_moves_deep, unless_within, without_place};
