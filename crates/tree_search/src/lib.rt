//! The entries of a tree of pages from a key on ([MS-PST] 2.2.2.7.7).
//!
//! `find_from` gives the first entry of a tree whose key isn't below a number. It reads the pages on the way down, and where a page ends below the number, those on the way to the next one. It stops only by its source, or where the pages aren't a tree.
#![tactic(auto)]

mod search;

pub use search::find_from;
