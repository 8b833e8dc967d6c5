//! A store: the tree of folders and messages that the nodes of a keeper show, changed by commands.
//!
//! Promises: `outcome` answers what the step of a command says of every tree that the desk shows, whose draft has the changes; `plan_outcome` plans them, and changes nothing: want of room or of numbers is said only of a command that writes, and where one is planned there was room (`Space`); `commit` makes the nodes show the tree after it, and a stop at any of its moments leaves a disk that stands for the tree from before or for that after (`any_moment`); `save` keeps the tree. What a store knows of its tree beside the nodes is so at each time (`Knows`).
//!
//! Leaves to others: what nodes are kept in, how a tree is found in them (`tree_look`), and lines and replies as text.
#![tactic(auto)]

mod commands;
mod knowing;
mod planned;
mod store;

pub use commands::outcome;
pub use planned::Planned;
pub use store::{Store, commit, plan_outcome, save};
