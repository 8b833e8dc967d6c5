//! The objects of a store as nodes: properties, tables, messages, and nodes without data.
//!
//! Promises: `read_context`, `read_table` and `read_mail` give the object that a node is (`ShowsObject`), and `None` exactly where it is none of that form; `write_object` makes a node that is the object, if that is small enough, which `object_fits` tests; a node is at most one object of a form (`one_object`). A message is its properties, its recipients, its attachments, and the subnodes that none of these uses ([MS-PST] 2.4.5): `read_message` gives the message that a node is (`ShowsMessage`), exactly where it is one, and else the fault of its first part that has one (`LacksMessage`); `write_message` makes a node that is the message and takes no more blocks than are asked for it (`message_space`). A node is at most one message (`one_message`) and has at most one fault (`one_fault`).
//!
//! Leaves to others: which objects a store has, where messages stand, and what their values mean.
#![tactic(auto)]

mod context;
mod law;
mod mail;
mod message;
mod object;
mod read;
mod table;
mod write;

pub use context::Context;
pub use law::one_object;
pub use mail::Mail;
pub use message::{MessageFault, is_formed, one_fault, one_message, read_message, write_message};
pub use object::Object;
pub use property_context::write_limits;
pub use read::{read_context, read_mail, read_table};
pub use table::TableNode;
pub use table_writer::table_context;
pub use write::{object_fits, write_object};
