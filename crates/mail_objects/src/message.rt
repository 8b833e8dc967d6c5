//! A message as a node ([MS-PST] 2.4.5): its properties, its recipients, its attachments, and the subnodes that none of these uses.
mod fault;
mod ids;
mod kept;
mod law;
mod order;
mod read;
mod write;

pub use fault::MessageFault;
pub use law::{one_fault, one_message};
pub use read::read_message;
pub use write::{is_formed, write_message};
