//! The lines that a session reads and the replies that it gives, as text.
//!
//! Promises: `read_line` gives the command that `Lines` says a line is, or its refusal; `only_asks` tells the commands that only ask; `reply_text` gives the bytes that `Replies` says of a reply.
//!
//! Leaves to others: cutting the input into lines, and what a command does.
#![tactic(auto)]

mod arguments;
mod asking;
mod command;
mod embedded;
mod printing;
mod reading;
mod reply;
mod scope;
mod words;

pub use arguments::{id_and_name, id_and_tag, id_and_value, one_id, two_ids};
pub use asking::only_asks;
pub use command::{Command, Held, LineRefusal};
pub use embedded::EmbeddedCommand;
pub use printing::reply_text;
pub use reading::{read_line, read_text};
pub use reply::{CommandRefusal, DataLine, DataLines, LastLine, Limit, Reply};
pub use scope::Scope;
pub use words::{as_text, cut, read_name};
