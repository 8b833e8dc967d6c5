//! The names that stand in the store.
ghost use Rattle.std.specs.Prelude.{IfErr, IfOk};
ghost use Rattle.mail_tree.specs.Changing.{known};
ghost use Rattle.mail_tree.specs.Names.{names_in, unless_nameless};
ghost use Rattle.mail_draft.specs.Answers.{IsCalm, Says};
ghost use Rattle.mail_draft.specs.Sight.{Answers, Reads};
ghost use Rattle.named_props.specs.Holding.{IsWritable, names_of};

use command_text::CommandRefusal;
use mail_draft::{Desk, Stop};
use mail_tree::mail_objects::Context;
use mapi_values::tags::FIRST_NAMED_ID;
use named_props::{Names, read_names};
use pst_base::{MemOr, Nid};
use std::alloc::Global;

/// The node of names ([MS-PST] 2.4.7).
pub(crate) const NAMES: Nid = Nid { bits: 0x61 };

/// The names that the values of their node hold.
pub(crate) fn names_of(alloc: Global, context: &Context) -> Result<Names, Stop>
    ensures answer { Says (λ n. n) (known (names_of context.now.props)) result }
    ensures writable { IfOk result IsWritable }
    ensures cause { IfErr result IsCalm }
{
    match read_names(alloc, context.props()) {
        Ok(names) => Ok(names),
        Err(MemOr::Refused(_)) => Err(Stop::formless()),
        Err(MemOr::Memory) => Err(Stop::Memory),
    }
}

/// The names of the store.
fn names_in<D: Desk>(desk: &mut D) -> Result<Names, Stop>
    ensures reads { Reads (D.view desk.old) (D.view desk.new) result }
    ensures answer { Answers (D.view desk.old) (λ n. n) (λ T c. names_in T) result }
{
    let context = desk.context_before(NAMES)?;
    names_of(desk.alloc(), &context)
}

/// Checks that a property with this id may be set: one of 8000h or more has a name. Refused as `Property` otherwise.
#[tactic(auto, unfolding(mail_tree::specs::Names::unless_nameless))]
pub fn check_named<D: Desk>(desk: &mut D, id: u16) -> Result<(), Stop>
    ensures reads { Reads (D.view desk.old) (D.view desk.new) result }
    ensures answer { Answers (D.view desk.old) (λ u. u) (λ T c. unless_nameless T id) result }
{
    if id < FIRST_NAMED_ID {
        return Ok(());
    }
    let names = names_in(desk)?;
    if !names.has_name(id) {
        return Err(Stop::Refused(CommandRefusal::Property));
    }
    Ok(())
}
