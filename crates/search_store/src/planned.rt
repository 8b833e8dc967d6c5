//! A command that is planned where there are searches.
use mail_searches::{OwnFolders, Searches};
use mail_store::Planned;

/// A command that is planned: what is planned of it in the tree, and after it the own search folders and the searches with criteria, `None` where they stay. It may be given up: then nothing has changed.
#[derive(Drop)]
pub struct PlannedSearch<R> {
    pub tree: Planned<R>,
    pub own: Option<OwnFolders>,
    pub searches: Option<Searches>,
}
