//! Tests of the crates for files, and of the world over a real file.
//!
//! They stand apart from what they test, so that each crate is proved once.
#![tactic(auto)]

#[cfg(test)]
mod content_plan_test;
#[cfg(test)]
mod empty_file_test;
#[cfg(test)]
mod file_world_test;
#[cfg(test)]
mod plan_pieces_test;
