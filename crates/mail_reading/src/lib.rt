//! The commands that only read a store: `ls`, `get`, `props`, `fetch` and `getcriteria`, over anything that tells nodes; and what a view of a folder's messages shows.
//!
//! Promises: `ask` comes to what the step of such a command comes to, of every tree with searches that the nodes show, whatever its searches list, and says of all other commands that they are no line (`asked`). It only looks, and its bounds give it nothing that writes. That such a command leaves a whole tree whose searches are those of its nodes, and is answered or refused there, is the law `reads_leave`. `list_rows` gives a folder's table and the messages that its rows name (`listing_of`).
//!
//! Leaves to others: the commands themselves (`mail_messages`, `mail_parts`, `search_folders`), lines and replies as text, and where the nodes stand.
#![tactic(auto)]

mod asking;
mod law;
mod reading;
mod viewing;

pub use asking::ask;
pub use law::reads_leave;
pub use search_folders;
pub use search_folders::{mail_draft, mail_folders};
pub use viewing::{Listing, list_rows};
