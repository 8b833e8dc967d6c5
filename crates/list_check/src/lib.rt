//! A check of the lists of searches against the messages.
//!
//! Promises: `find_stale` finds a running search whose list isn't what filtering all messages gives, or tells that there is none (`Checks`). It reads each list and each message once, keeps the ids of rows alone, and asks each running search of each message.
//!
//! Leaves to others: what a search is to list (`mail_searches`), how a list is built and follows messages (`search_folders`, `search_results`), and what becomes of a list that isn't as it is to be.
#![tactic(auto)]

mod check;
mod passing;
mod reading;
mod rows;
mod watching;

pub use check::find_stale;
