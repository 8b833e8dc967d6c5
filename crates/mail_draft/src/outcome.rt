//! What a command comes to.
ghost use Rattle.std.specs.Prelude.{◌≡◌, true};
ghost use Rattle.mail_draft.specs.Drafts.{all_fit, changed_of};

use crate::draft::Draft;
use command_text::Reply;
use mail_tree::Places;
use node_port::Counts;
use std::alloc::Global;

/// What a command comes to: its changes, the places of the folders after it and the counters after it, `None` where they stay, and its reply. All that it changes may be written.
#[derive(Debug, Drop)]
pub struct Outcome {
    pub draft: Draft,
    pub places: Option<Places>,
    pub last: Option<Counts>,
    pub reply: Reply,
    ghost fits: { all_fit (changed_of draft) ≡ true },
}

impl Outcome {
    ghost use Rattle.mail_tree.specs.Tree.{Tree};
    ghost use Rattle.mail_tree.specs.Folders.{unchanged};
    ghost use Rattle.mail_draft.specs.Outcomes.{outcome_of};

    /// Nothing but a reply.
    pub fn unchanged(alloc: Global, reply: Reply) -> Outcome
        ensures { (T : Tree) → outcome_of T result ≡ unchanged T reply }
    {
        Outcome {
            draft: Draft::new(alloc),
            places: None,
            last: None,
            reply,
        }
    }
}
