//! What new blocks and pages make of a file that lays nodes, and how often its blocks are referred to.
//!
//! A plan has edits of both trees, the pages that they come to, and the places of new pages and blocks. `plans_commit` says that such a plan can be committed and comes to the changed nodes: wherever its pieces stand beside all that stood, the file lays the changed nodes under the new header (`planned-commits`, over `joined`). Sealed blocks and pages are what was planned wherever they stand (`sealed-stands`, `pages-shown`), a changed node is read from its blocks (`one-changed`, `node-leads`), and a file grows by whole regions (`growth-beside`, `end-least`).
//!
//! A node reaches the blocks of its data and of its subnodes at all levels (`node_keys`), and a block has as many references as nodes reach it, each as often as it does. `keeps_refs` says that numbers which are kept by what edits take and put are those of the new file's references, and `frees_unused` that a block which no node reaches any more is in the new block tree only where the old one had it and no node reached it. A node that edits leave needs just the blocks that it reaches (`needs-reached`), so it reads the same while these stay (`left-needs`, `frees-left`). Data of blocks of which none is named twice is no longer than the file (`data-fit`).
//!
//! Leaves to others: the choice of places, of numbers, and of which blocks stay.
#![tactic(auto)]

mod commit;
mod refs;

pub use commit::plans_commit;
pub use refs::{frees_unused, keeps_refs};
