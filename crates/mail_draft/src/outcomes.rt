//! What commands come to, once their changes keep to the limits.
ghost use Rattle.std.specs.Prelude.{◌<◌, ◌≤◌, IfErr, OnOk};
ghost use Rattle.command_text.specs.declared.reply.CommandRefusal.TheVariants.{Ids};
ghost use Rattle.mail_tree.specs.Changing.{refused_if};
ghost use Rattle.mail_tree.specs.Ids.{is_spent};
ghost use Rattle.mail_draft.specs.Answers.{IsRefused, Says};

use crate::ids::LAST_INDEX;
use crate::stop::Stop;
use command_text::CommandRefusal;

/// Refused where an index is past the last one.
pub(crate) fn unless_spent(index: u64) -> Result<(), Stop>
    ensures answer { Says (λ u. u) (refused_if (is_spent index) Ids) result }
    ensures few { OnOk result (index ≤ 134217727) }
    ensures refused { IfErr result IsRefused }
{
    if index > LAST_INDEX {
        return Err(Stop::Refused(CommandRefusal::Ids));
    }
    Ok(())
}
