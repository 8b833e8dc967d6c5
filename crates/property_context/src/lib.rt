//! The property context ([MS-PST] 2.3.3): the properties of an object in the heap of its node, with long values in subnodes.
//!
//! Promises: `read_pc` gives the properties and the other subnodes exactly where the bytes are a property context as `Context.antt` says, and else the first fault that they have. What `write_pc` makes is a property context of what it was given; its subnodes are those of the long values and the others, as `AddsLong` says, and its heap is packed as that of a `HeapMaker`. Its data blocks, with those of the subnodes, are no more than `props_space` and the rest ask room for. `one_context` says that the same bytes are at most one property context.
//!
//! What the properties mean is left to others.
#![tactic(auto)]

mod law;
mod placing;
mod read;
mod value;
mod write;

pub use law::one_context;
pub use read::{PcFault, read_pc};
pub use write::write_pc;
pub use write_limits;
