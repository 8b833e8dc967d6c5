//! A tree of blocks over pages in memory, for rows and for measuring: `Shelf` gives its pages to `tree_edit`, and takes the new pages of a plan.
#![tactic(auto)]

mod pages;

pub use pages::Shelf;
