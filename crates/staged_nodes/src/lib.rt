//! The changes of a transaction before they are committed: over a keeper of nodes, which stays as it is meanwhile.
//!
//! Promises: `Staging` keeps changes of nodes, each node once (`IsStaged`), and says how much they put; it plans further changes, for which there is room beside what it puts so far, and makes them in three steps: `plan` decides and counts, `make_room` makes slots, and `fill` makes the changes and takes no memory. `changes` lists them as a keeper takes them. `StagedKeeper` tells the nodes of a keeper with these changes (`ShowsOver`), plans further ones, asks nothing of the world where it makes them, and tells no nodes afterwards. `cells_left` learns of a keeper what room it has. `CountKeeper` keeps counters alone.
//!
//! Leaves to others: what nodes mean, and committing the changes to the keeper.
#![tactic(auto)]

mod around;
mod cells;
mod counting;
mod keeper;
mod nowhere;
mod slots;
mod staging;

pub use around::AroundStaged;
pub use cells::{CellsLeft, cells_left};
pub use counting::CountKeeper;
pub use keeper::StagedKeeper;
pub use nowhere::Nowhere;
pub use pinned_views;
pub use slots::Slot;
pub use staging::{MOST_STAGED, StagedReady, Staging};
