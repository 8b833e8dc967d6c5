//! The pages of a file's trees ([MS-PST] 2.2.2.7.7), read on demand.
//!
//! `entry_at` finds the entry with a key in a tree of a file over a world, `entry_from` the first from a key on, and `change_at` plans a tree after edits. They read the pages on the way alone, check each by its frame, and keep it in a cache. Promises: over a world that tells, with a cache that has no other pages than the file's, the answer is that of the file's tree; a page that isn't there, or isn't one of its tree, stops the search as changed; nothing is written, and the cache has no other pages than the file's still.
//!
//! A tree of a file (`IsWhole` of file_layout) is one of what its pages show (`shaped-root`), and what pages show is a tree of the file (`unshaped-root`).
#![tactic(auto)]

mod changes;
mod search;
mod source;

pub use changes::change_at;
pub use search::{FileTree, entry_at, entry_from};
