//! What searches list in the tree of a store, what a command does to their tables, and what keeps a tree with its searches in order.
//!
//! Promises: the list of a search is what filtering all messages gives (`lists`). Each command touches just the messages that it names, makes or carries along (`touched`), no other message comes into a list or goes (`touches_all`), and where a running search listed what it is to list, it does so after the touched messages came and went (`lists_after`, `fresh_after`); where its rows mirrored those messages and its values told their counts, they do so then too (`shows_after`). Where the tree after a command is in order, it is so after the lists of its searches got other rows (`results_keep_order`), as they do where they follow the messages that it touches (`settling_keeps_order`).
//!
//! Leaves to others: the criteria of a search and where they stand (`search_obj`), whether a restriction holds (`restr_eval`), and the step of a command without searches (`mail_tree`). That a tree with its searches stays in order through each command, those on searches among them, is `search_laws`' matter.
#![tactic(auto)]

mod law;
mod order;

pub use law::{
    counts_anew, fresh_after, halted_stays, leaves_all, lists_after, lists_all,
    plain_commands_stay, relists, scopes_are_within, settles_all, settles_there, shows_after,
    shows_touched, stays_fresh, touches_all,
};
pub use order::{results_keep_order, settling_keeps_order};
