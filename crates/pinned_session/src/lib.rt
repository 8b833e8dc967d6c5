//! Lines of a session over a store with searches, outside of a transaction: commands of the store carried out over any keeper with pins, pins made, asked and given up, views opened, shown and closed, and messages put into attachments and changed there.
//!
//! Promises, over any keeper and any world that tells what it holds, from a store that stands in a state (`Sits`): `answer` answers what a line asks for (`SaysTo`). A command of the store is answered by its step on the present tree, and a command behind `at` by its step on the tree of its pin, whatever commits came between; a line on views by the table of its folder as it is (`AnswersView`); a line on the message in an attachment by what it comes to (`Means`), which is a reply or a command of the store; a reply is made before its command changes anything. The disk is taken to the next as a commit or a save makes it, or left, and a stop at any moment leaves one that stands for the tree before the line or after it.
//!
//! Leaves to others: what a keeper's disk and its pins are (`Keeper.stands`, `Pinner`), in which order rows stand (`sorted_views`), lines within a transaction (`staged_store`), and the session itself (`mail_transactions`).
#![tactic(auto)]

mod asking;
mod commands;
mod embedding;
mod lines;
mod pinning;
mod pins;
mod viewing;
mod views;

pub use lines::answer;
pub use mail_embedding;
pub use mail_reading;
pub use pinned_views;
pub use pins::{PinView, PinnedStore, view_of};
pub use session_lines;
pub use store_session;
pub use viewing::{add_listed, close_view, shown_spoken, view_spoken};
pub use views::{OpenView, OpenViews, close_views, view_at};
