//! What changes come to with which folders come, go or move.
ghost use Rattle.command_text.specs.declared.reply.LastLine.TheVariants.{Done};
ghost use Rattle.mail_tree.specs.Folders.{moving, replied};
ghost use Rattle.mail_draft.specs.Desks.{Comes};
ghost use Rattle.mail_draft.specs.Sight.{Reads};

use command_text::{LastLine, Reply};
use mail_draft::{Coming, Desk, Stop};
use mail_tree::Places;

/// What changes come to once folders stand at these places. Refused where they pass a limit.
pub fn moving<D: Desk>(desk: &mut D, places: Places) -> Result<Coming, Stop>
    ensures reads { Reads (D.view desk.old) (D.view desk.new) result }
    ensures answer { Comes (D.view desk.old) (D.view desk.new) (λ T. moving T places (replied Done)) result }
{
    desk.check_limits(None)?;
    Ok(Coming {
        places: Some(places),
        last: None,
        reply: Reply::without_data(desk.alloc(), LastLine::Done),
    })
}
