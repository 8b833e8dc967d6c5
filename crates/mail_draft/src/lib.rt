//! Changes of a tree in the making: a command reads what stands in the nodes through the draft of what it has changed, so that a later part of it sees what an earlier one did.
//!
//! Promises: each call answers what the definition of its name in mail_tree says of every tree that the nodes show (`Says`), and only looks at the nodes (`Looks`).
//!
//! Leaves to others: which commands there are, and carrying the changes out.
#![tactic(auto)]

mod beside;
mod coming;
mod desk;
mod draft;
mod ending;
mod flags;
mod glance;
mod ids;
mod kept;
mod limits;
mod listed;
pub mod on_desk;
mod on_keeper;
mod once;
mod outcome;
mod outcomes;
mod read;
mod row_look;
mod rows;
mod seen;
mod settle;
mod space;
mod stop;
mod unread;
mod values;

pub use beside::{associated, contents, hierarchy};
pub use coming::Coming;
pub use content_glance;
pub use desk::{CountingDesk, Desk};
pub use draft::Draft;
pub use ending::finish;
pub use flags::{flag_changes, flag_of};
pub use glance::{glance_of, number_told, text_told};
pub use ids::new_id;
pub use limits::crowds_message;
pub use listed::{message_ids, message_ids_at};
pub use on_keeper::StoreDesk;
pub use outcome::Outcome;
pub use read::{as_message, context_at, message_at, table_at};
pub use seen::Seen;
pub use space::space_needed;
pub use stop::Stop;
pub use values::{
    bytes_of, folded_name, is_read, name_of, number_of, put_number, put_text, put_time, put_truth,
    text_of, with_counts,
};
