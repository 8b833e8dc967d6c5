//! How a command on one message ends.
ghost use Rattle.std.specs.Prelude.{◌≡◌, None};
ghost use Rattle.command_text.specs.declared.reply.LastLine.TheVariants.{Done};

use command_text::{CommandRefusal, LastLine};

/// How a command on one message ends, once its changes keep to the limits: refused for a reason beside them, or else with a reply.
#[derive(Debug, Drop)]
pub struct Ending {
    pub reason: Option<CommandRefusal>,
    pub last: LastLine,
}

impl Ending {
    /// No reason against it, and `ok` as the reply.
    pub fn done() -> Ending
        ensures reason { result.reason ≡ None }
        ensures last { result.last ≡ Done }
    {
        Ending {
            reason: None,
            last: LastLine::Done,
        }
    }
}
