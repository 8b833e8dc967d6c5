//! What a command comes to beside its changes, where there are searches.
use mail_searches::{OwnFolders, Searches};

/// What a command comes to beside its changes: what it comes to in the tree, and after it the own search folders and the searches with criteria, `None` where they stay. Contracts see `coming_of` it.
#[derive(Debug, Drop)]
pub struct Coming {
    pub tree: mail_draft::Coming,
    pub own: Option<OwnFolders>,
    pub searches: Option<Searches>,
}

impl Coming {
    ghost use Rattle.std.specs.Prelude.{◌≡◌, Ok};
    ghost use Rattle.mail_draft.specs.Desks as tree_desks;
    ghost use Rattle.mail_tree.specs.Changing.{Changed};
    ghost use Rattle.mail_searches.specs.Criteria.{staying};
    ghost use Rattle.mail_searches.specs.Searching.{Searching};
    ghost use Rattle.search_folders.specs.Comings.{coming_of};

    /// What a command comes to that leaves the searches as they are.
    pub fn staying(tree: mail_draft::Coming) -> Coming
        ensures { (X : Searching) (D : Changed) → staying X (tree_desks.coming_of X.tree D tree) ≡ Ok (coming_of X D result) }
    {
        Coming {
            tree,
            own: None,
            searches: None,
        }
    }
}
