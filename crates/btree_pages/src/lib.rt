//! The pages of the node tree and the block tree, one page at a time ([MS-PST] 2.2.2.7.7).
//!
//! A page is a level and a list of entries. An inner page's entries name pages one level below; a leaf's are of the tree's own kind, which implements `Entry`. `TreePage` reads a page's 496 bytes without copying them: it accepts exactly the pages that `page_of` reads, and each refusal is the first fault of one page. `write_leaf` and `write_inner` give bytes that read back.
//!
//! What a page owes to its place in a tree is left to the caller: its frame, that only a root may be empty, the level below the parent's, and the parent's span of keys.
#![tactic(auto)]

mod entry;
mod inner;
mod page;
mod write;

pub use entry::{BlockEntry, Entry, NodeEntry};
pub use inner::Inner;
pub use page::TreePage;
pub use write::{write_inner, write_leaf};
