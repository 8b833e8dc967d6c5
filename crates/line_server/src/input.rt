//! Taking input until there is something to answer.
ghost use Rattle.std.specs.Prelude.{◌≡◌, false, IfOk, OnErr};
ghost use Rattle.pst_outside.specs.Calls.{Rose};
ghost use Rattle.line_server.specs.Worlds.{Listens};
ghost use Rattle.line_server.specs.Fronts.{StandsAt, IsReady};
ghost use Rattle.line_server.specs.Taking.{GoesOn, EndsIn};

use crate::lines::{Front, LineBuffer};
use pst_outside::{Failed, Outside};

/// Takes input until a line or the front of one that is too long is held, or the input has ended. Once it has ended, no more is asked of it.
pub(crate) fn next_front<W: Outside>(
    lines: &mut LineBuffer,
    ended: &mut bool,
    world: &mut W,
) -> Result<Front, Failed>
    ensures held { GoesOn ended.old lines.old lines.new (W.view world.old) (W.view world.new) }
    ensures ends { EndsIn ended.old ended.new (W.view world.old) (W.view world.new) }
    ensures front { IfOk result (λ front. IsReady front ended.new lines.new) }
    ensures open_front { OnErr result (StandsAt Front.Open lines.new) }
    ensures not_ended { OnErr result (ended.new ≡ false) }
    ensures cause { OnErr result (Rose (W.view world.old).in_faults (W.view world.new).in_faults) }
    ensures same { Listens (W.view world.old) (W.view world.new) }
{
    let mut front = lines.front();
    while front.is_open() && !*ended {
        *ended = lines.fill(world)? == 0;
        front = lines.front();
    }
    Ok(front)
}
