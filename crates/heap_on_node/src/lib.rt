//! The heap on a node ([MS-PST] 2.3.1): the items that a property context or a table context keeps in the data blocks of its node.
//!
//! Promises: `HeapView::read` accepts just the blocks that `IsHeap` calls a heap, and `item` gives just the items that `Heap.antt` finds in them; both copy nothing. What a `HeapMaker` makes is a heap with just the items that were added, each under the heap id that `add` gave, and begins no block for an item that would have fitted into the one before.
//!
//! What the items mean is left to others.
#![tactic(auto)]

mod draft;
mod layout;
mod maker;
mod view;

pub use draft::Draft;
pub use layout::{block_of, is_room};
pub use maker::HeapMaker;
pub use view::{HeapFault, HeapView, bounds, count};
