//! The contents of pages that were read last, by their places, so that a page needn't be read again.
//!
//! A cache means nothing by itself: each page in it is the one of its place in some contents (`Holds`), and stays so while the contents stay. Where other bytes are to stand at a place, its page is forgotten first. When it is full, the page that was used longest ago leaves.
#![tactic(auto)]

mod cache;

pub use cache::{Cached, PageCache};
