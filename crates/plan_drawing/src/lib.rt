//! A plan of a commit in all its parts, once its blocks and pages have places.
//!
//! `change_trees` plans both trees of a file after edits (`ArePlanned`). `finish_plan` puts a plan together of what is to be written, both trees and the places: its pieces, the header of the next commit, and what is known of the file then (`IsDrawn`).
//!
//! Laws for those who join these with a file: how the edits of old blocks and those of new ones lie in the block tree (`RecountLaws`, `NewLaws`), and how far a file reaches and how many pages its trees have (`FileLaws`).
//!
//! Leaves to others: what is to be written, and the choice of places.
#![tactic(auto)]

mod draw;
mod effects;
mod freed;
mod trees;

pub use draw::{Numbers, Sketch, finish_plan};
pub use effects::PlanEffects;
pub use plan_pieces;
pub use trees::{Trees, block_tree, change_trees, changed_at};
