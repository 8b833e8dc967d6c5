//! What a command comes to where there are searches.
use crate::coming::Coming;
use mail_draft::{Draft, Outcome};
use mail_searches::{OwnFolders, Searches};

/// What a command comes to: what it comes to in the tree, and after it the own search folders and the searches with criteria, `None` where they stay. Contracts see `comes_to` it.
#[derive(Debug, Drop)]
pub struct SearchOutcome {
    pub outcome: Outcome,
    pub own: Option<OwnFolders>,
    pub searches: Option<Searches>,
}

impl SearchOutcome {
    ghost use Rattle.std.specs.Prelude.{◌≡◌, true};
    ghost use Rattle.mail_draft.specs.Drafts.{all_fit, changed_of};
    ghost use Rattle.mail_searches.specs.Searching.{Searching};
    ghost use Rattle.search_folders.specs.Comings.{comes_to, coming_of};

    /// What a command comes to with the changes in this draft.
    pub fn new(draft: Draft, coming: Coming) -> SearchOutcome
        requires fits { all_fit (changed_of draft) ≡ true }
        ensures { (X : Searching) → comes_to X result ≡ coming_of X (changed_of draft) coming }
    {
        let Coming {
            tree,
            own,
            searches,
        } = coming;
        SearchOutcome {
            outcome: Outcome {
                draft,
                places: tree.places,
                last: tree.last,
                reply: tree.reply,
            },
            own,
            searches,
        }
    }
}
