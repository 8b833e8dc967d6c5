//! Lines on messages in attachments: `embed`, `eprops`, `eget`, `eset` and `eunset`.
//!
//! Promises: `mean` says of each such line what it comes to on every whole tree that the nodes show (`Means`): a reply, a refusal, or a command of the store that leaves the attachment with just the message that the line is to leave there. It only looks.
//!
//! Leaves to others: which attachment holds which message (`embedded_obj`), and carrying the command out.
#![tactic(auto)]

mod embed;
mod entry;
mod inside;
mod lines;
mod meaning;
mod putting;
mod room;

pub use embedded_obj;
pub use entry::mean;
pub use meaning::Meaning;
