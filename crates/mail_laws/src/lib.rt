//! What follows of every command on the tree of a store: laws, each the contract of a function that does nothing.
//!
//! Each command on a whole tree is answered or refused and leaves a whole tree that an opening finds, whose rows mirror what they show and whose counts are right; what comes, goes and moves is what the command names, and all else stays. What is new has just the values that it is told; a message tells its own size, and its table of attachments shows them; a listing shows all that is in a folder.
//!
//! Leaves to others: the tree and the steps themselves (`mail_tree`), and the code that carries them out.
#![tactic(auto)]

mod attachment;
mod folder;
mod law;
mod message;

pub use attachment::attachments_stay;
pub use folder::{lists_folders, makes_bare_folder};
pub use law::{
    adds_attachment, adds_recipient, appends_data, comes_and_goes, copies, counts_anew,
    counts_stay, gets_what_was_set, gives_new_ids, keeps_nodes, keeps_tables, keeps_values,
    leaves_searches, makes_folder, makes_message, mirrors_stay, moves, moves_folder,
    names_property, reads, removes, removes_attachment, removes_folder, removes_recipient,
    renames_folder, sets, sets_embedded, some_is_whole, starts_whole, stays_found, stays_whole,
    unsets,
};
pub use message::{finds_messages, makes_bare_message, tell_rightly};
