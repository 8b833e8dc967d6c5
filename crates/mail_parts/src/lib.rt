//! The commands on the recipients and attachments of messages.
//!
//! Promises: each command of `on_desk` answers what the definition of its command in mail_tree says of every tree that the desk shows, and only looks at the nodes; what changes stands in the desk's draft.
//!
//! Leaves to others: how a changed message is shown and counted, and carrying the changes out.
#![tactic(auto)]

mod appending;
mod attachments;
mod embedding;
pub mod on_desk;
mod part_ids;
mod part_places;
mod part_values;
mod recipients;
mod with_attachments;
mod with_recipients;

pub use attachments::with_attachment;
pub use mail_draft;
pub use mail_messages;
pub use mail_messages::mail_names;
pub use part_ids::next_part;
pub use part_places::part_in;
pub use with_attachments::LAST_INDEX;
