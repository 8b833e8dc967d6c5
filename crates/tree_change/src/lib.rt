//! Edits of a tree of pages ([MS-PST] 2.2.2.7.7), from its root: what `tree_edit` makes of the pages below it, with new pages above them, up to a single one.
//!
//! `change` plans the new pages and names those that they stand for: with the pages that stay, the new ones are the tree of the edited entries (`IsPlan`), whatever ids and places they get. Only a tree that would pass level 7 is written anew as a whole, packed.
#![tactic(auto)]

mod root;

pub use root::change;
