//! A tree of pages written anew in as few pages as it takes, level by level ([MS-PST] 2.2.2.7.7).
//!
//! Promises: `leaf_page` and `inner_page` give a page that shows its entries or children, sealed for its place (`ShowsPage`). Pages that show so what stands on the levels of a packed tree (`IsPacked`) are the tree of its entries (`packed-whole`), each of them once.
//!
//! Leaves to others: the ids and places of the pages, and writing them.
#![tactic(auto)]

mod pages;

pub use pages::{inner_page, leaf_page};
