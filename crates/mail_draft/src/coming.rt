//! What a line comes to beside its changes.
ghost use Rattle.std.specs.Prelude.{◌≡◌, None};

use command_text::Reply;
use mail_tree::Places;
use node_port::Counts;

/// What a line comes to beside its changes: the places of the folders after it and the counters after it, `None` where they stay, and its reply.
#[derive(Debug, Drop)]
pub struct Coming {
    pub places: Option<Places>,
    pub last: Option<Counts>,
    pub reply: Reply,
}

impl Coming {
    /// Places and counters stay.
    pub fn replied(reply: Reply) -> Coming
        ensures places { result.places ≡ None }
        ensures last { result.last ≡ None }
        ensures reply { result.reply ≡ reply }
    {
        Coming {
            places: None,
            last: None,
            reply,
        }
    }
}
