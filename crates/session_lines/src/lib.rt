//! The lines of a session, of which some are on transactions, some on pins, trees that stay readable, some on views, sorted lists of a folder's messages, some on messages in attachments, and all others are commands of the store; and what is said to a line on transactions, pins and views.
//!
//! Promises: `read_transaction_line` and `read_session_line` give what `Lines` says a line is, or its refusal; `transaction_reply_text`, `pin_reply_text`, `view_reply_text`, `rows_text` and `groups_text` give the bytes that `Texts` says.
//!
//! Leaves to others: cutting the input into lines, what a command is (`command_text`), which pins and views are open, and which rows a view has.
#![tactic(auto)]

mod line;
mod printing;
mod reading;
mod rows;
mod words;

pub use line::{PinReply, SessionLine, TransactionLine, TransactionReply, ViewReply};
pub use printing::{pin_reply_text, transaction_reply_text, view_reply_text};
pub use reading::{read_session_line, read_transaction_line};
pub use rows::{groups_text, rows_text};
