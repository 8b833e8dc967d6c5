//! What a line on the message in an attachment comes to.
use command_text::{Command, Reply};

/// What a line on the message in an attachment comes to, where it isn't refused.
#[derive(Debug, Drop)]
pub enum Meaning {
    /// It only asks, and this is its reply.
    Replies(Reply),
    /// It is to change the store, and this is the command that does so.
    Becomes(Command),
}
