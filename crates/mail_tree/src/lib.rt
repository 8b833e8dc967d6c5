//! The tree of a store: folders, messages and all that it keeps, and what each command does to it.
//!
//! This crate is the meaning of the store. `specs/` says which nodes show which tree (`Tree`), what each command refuses and changes (`Folders`, `Messages`), and its step (`Step`).
//!
//! Leaves to others: what follows of every command (`mail_laws`), and how nodes are read and written.
#![tactic(auto)]

mod columns;
mod known;
mod note;
mod places;

pub use columns::{attachments_table, contents_table, hierarchy_table, recipients_table};
pub use known::{Flags, Known};
pub use mail_objects;
pub use note::Note;
pub use places::{FolderPlace, Places, ROOT_FOLDER, Sort};
