//! The BTree on a heap ([MS-PST] 2.3.2): records of a key and an entry, in leaves and levels of pairs above them.
//!
//! Promises: `bth_read` gives the records of a tree, and `bth_find` one entry, both exactly where the whole tree is in order as `Tree.antt` says; `bth_find` takes no memory. What `bth_make` makes reads as the records that it was given, and leaves all other items.
//!
//! What keys and entries mean is left to others.
#![tactic(auto)]

mod find;
mod make;
mod read;
mod record;

pub use find::bth_find;
pub use make::bth_make;
pub use read::bth_read;
pub use record::{BthFault, Record};
