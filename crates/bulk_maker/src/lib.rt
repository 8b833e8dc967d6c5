//! The commands that make a large input.
//!
//! Promises: `folder_command`, `search_command`, `criteria_command` and `message_command` give the commands that `Bulk` says a seed and a place in the row of messages ask for.
//!
//! Leaves to others: carrying the commands out, and how many messages there are.
#![tactic(auto)]

mod commands;
mod texts;

pub use commands::{criteria_command, folder_command, message_command, search_command};
