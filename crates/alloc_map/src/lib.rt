//! The places of a file: which slots of 64 bytes are used, and where a new block or page may stand.
//!
//! Promises: a `Slots` is the set of used slots that `Slots.antt` describes. `rebuild` makes it from all places that stand in a file, and refuses exactly those that meet one another or an AMap page, by `Standing.antt`. `place_block` and `place_page` give the least free place and use just its slots; where a cell is free they find one, and a block takes at most one free cell. Each other call changes just the slots that it names; places that were taken and are given back leave the set as it was. `retake` and `release` may be called of any places: they take those of a plan again, and free those that it frees. No call but `rebuild`, `copy`, `place_blocks` and `place_pages` takes memory. The number of free cells is kept, so `free_cells` looks at nothing. `end_for` says where a file ends that has to hold new places.
//!
//! Laws for callers, without code: `room_taken` and `places_taken`.
//!
//! Which places stand in a file, and when a freed place may be given again, is left to others.
#![tactic(auto)]

mod bits;
mod bounds;
mod cells;
mod count;
mod cover;
mod ends;
mod law;
mod overlap;
mod placing;
mod search;
mod slots;

pub use ends::end_for;
pub use law::{places_taken, room_taken};
pub use overlap::Overlap;
pub use page_frame;
pub use slots::Slots;
