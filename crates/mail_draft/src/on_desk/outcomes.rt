//! What lines come to, once their changes keep to the limits.
ghost use Rattle.std.specs.Prelude.{◌≡◌, ◌<◌, IfOk, None};
ghost use Rattle.command_text.specs.declared.reply.LastLine.TheVariants.{Done};
ghost use Rattle.mail_tree.specs.Folders.{changing, making, replied, replying};
ghost use Rattle.mail_draft.specs.Desks.{Comes};
ghost use Rattle.mail_draft.specs.Outcomes.{places_after};
ghost use Rattle.mail_draft.specs.Sight.{Reads};

use crate::coming::Coming;
use crate::desk::{CountingDesk, Desk};
use crate::ids::new_id;
use crate::outcomes::unless_spent;
use crate::stop::Stop;
use command_text::{CommandRefusal, LastLine, Reply};
use mail_tree::Places;
use node_port::Counts;

/// What changes come to that leave the folders where they are, with a reply of one line. Refused where they pass a limit, and then for another reason if there is one.
pub fn replying<D: Desk>(
    desk: &mut D,
    reason: Option<CommandRefusal>,
    last: LastLine,
) -> Result<Coming, Stop>
    ensures reads { Reads (D.view desk.old) (D.view desk.new) result }
    ensures answer { Comes (D.view desk.old) (D.view desk.new) (λ T. replying T reason (replied last)) result }
    ensures stays { IfOk result (λ coming. coming.places ≡ None) }
{
    desk.check_limits(None)?;
    match reason {
        Some(refusal) => Err(Stop::Refused(refusal)),
        None => Ok(Coming::replied(Reply::without_data(desk.alloc(), last))),
    }
}

/// What changes come to that leave the folders where they are. Refused where they pass a limit.
pub fn changing<D: Desk>(desk: &mut D) -> Result<Coming, Stop>
    ensures reads { Reads (D.view desk.old) (D.view desk.new) result }
    ensures answer { Comes (D.view desk.old) (D.view desk.new) (λ T. changing T (replied Done)) result }
{
    replying(desk, None, LastLine::Done)
}

/// What changes come to with which an object of a kind and an index comes; `places` where a folder comes. Refused where they pass a limit, and then where the index is past the last one.
pub fn making<D: CountingDesk>(
    desk: &mut D,
    places: Option<Places>,
    kind: u8,
    index: u64,
) -> Result<Coming, Stop>
    requires { kind < 32 }
    ensures reads { Reads (D.view desk.old) (D.view desk.new) result }
    ensures answer { Comes (D.view desk.old) (D.view desk.new) (λ T. making T (places_after T.places places) kind index) result }
{
    let made = new_id(kind, index);
    desk.check_limits(Some(made))?;
    unless_spent(index)?;
    let mut last = desk.counts().last;
    last[usize::from(kind)] = index as u32;
    Ok(Coming {
        places,
        last: Some(Counts { last }),
        reply: Reply::without_data(desk.alloc(), LastLine::Made(made)),
    })
}
