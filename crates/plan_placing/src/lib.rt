//! Places for the blocks and pages of a plan, and the plan with these.
//!
//! `draw_beside` places them beside the slots of a file and of its pins, and gives the places back: what a plan takes stands in the file only once it is carried out. Promises: the places are the least that are free there, the blocks first (`IsDrawn`); both sets of slots are afterwards as they were; each stop has its cause, and nothing is written.
//!
//! Leaves to others: what is to be written (`IsSketched`), and whether there is room for it (`CanDraw`).
#![tactic(auto)]

mod place;

pub use place::draw_beside;
