//! A command that is planned.
use command_text::Reply;
use mail_tree::{Note, Places};

/// A command that is planned: what its keeper is to change, if anything, the places of the folders after it, `None` where they stay, what is to be known of the objects that it puts or removes, by their ids, and its reply. It may be given up: then nothing has changed.
#[derive(Drop)]
pub struct Planned<R> {
    pub change: Option<R>,
    pub places: Option<Places>,
    pub flags: Vec<(u32, Option<Note>)>,
    pub reply: Reply,
}
