//! `name`
ghost use Rattle.std.specs.Prelude.{◌≡◌, IfOk, None};
ghost use Rattle.mail_tree.specs.Changing.{nothing};
ghost use Rattle.mail_tree.specs.Names.{found_or_added, named_property, with_another};
ghost use Rattle.mail_draft.specs.Desks.{Comes};
ghost use Rattle.mail_draft.specs.Sight.{Drafts};
ghost use Rattle.mail_names.specs.Parts.{property_given};
ghost use Rattle.named_props.specs.Finding.{name_at};
ghost use Rattle.named_props.specs.Holding.{IsWritable};

use crate::reading::{NAMES, names_of};
use command_text::{CommandRefusal, LastLine, Limit, Reply};
use mail_draft::on_desk::{put_context, replying};
use mail_draft::{Coming, Desk, Stop};
use mail_tree::mail_objects::Context;
use named_props::{Names, write_names};
use pst_base::MemOr;
use std::alloc::{AllocError, Global};

/// The names with another one of a number under a GUID, and the property that it has; the names as they are, and no property, where there is no room for it.
#[tactic(auto, unfolding(mail_tree::specs::Names::with_another))]
fn plan_name(
    alloc: Global,
    names: Names,
    guid: [u8; 16],
    number: u32,
) -> Result<(Names, Option<u16>), AllocError>
    requires new { name_at names.guids names.entries guid number ≡ None }
    requires writable { IsWritable names }
    ensures names { IfOk result (λ planned. planned.0 ≡ with_another names guid number) }
    ensures property { IfOk result (λ planned. planned.1 ≡ property_given names guid number) }
    ensures writable { IfOk result (λ planned. IsWritable planned.0) }
{
    let mut names = names;
    match names.lookup_or_add(alloc, guid, number) {
        Ok(property) => Ok((names, Some(property))),
        Err(MemOr::Refused(_)) => Ok((names, None)),
        Err(MemOr::Memory) => Err(AllocError),
    }
}

/// Adds a name of a number under a GUID. Refused where the values would pass a limit, and then where there is no room for the name.
fn add_name<D: Desk>(
    desk: &mut D,
    context: Context,
    names: Names,
    guid: [u8; 16],
    number: u32,
) -> Result<Coming, Stop>
    requires new { name_at names.guids names.entries guid number ≡ None }
    requires writable { IsWritable names }
    requires fresh { (D.view desk.old).changed ≡ nothing }
    ensures drafts { Drafts (D.view desk.old) (D.view desk.new) result }
    ensures answer { Comes (D.view desk.old) (D.view desk.new) (λ T c. found_or_added T context names guid number None) result }
{
    let (names, property) = plan_name(desk.alloc(), names, guid, number)?;
    let props = write_names(desk.alloc(), &names)?;
    put_context(desk, NAMES, context, props)?;
    match property {
        Some(property) => replying(desk, None, LastLine::Named(property)),
        None => {
            desk.check_limits(None)?;
            Err(Stop::Refused(CommandRefusal::Limit(Limit::Names)))
        }
    }
}

/// The property of a name of a number under a GUID, which is added where it isn't there.
fn found_or_added<D: Desk>(
    desk: &mut D,
    context: Context,
    names: Names,
    guid: [u8; 16],
    number: u32,
) -> Result<Coming, Stop>
    requires writable { IsWritable names }
    requires fresh { (D.view desk.old).changed ≡ nothing }
    ensures drafts { Drafts (D.view desk.old) (D.view desk.new) result }
    ensures answer { Comes (D.view desk.old) (D.view desk.new) (λ T c. found_or_added T context names guid number (name_at names.guids names.entries guid number)) result }
{
    match names.find(&guid, number) {
        Some(property) => {
            let reply = Reply::without_data(desk.alloc(), LastLine::Named(property));
            Ok(Coming::replied(reply))
        }
        None => add_name(desk, context, names, guid, number),
    }
}

/// The property whose name is a number under a GUID, whose bytes stand in their order in a file. A name that isn't there is added: its property has the index after the greatest. Refused where there is no room for it (`Limit`).
pub fn name_property<D: Desk>(desk: &mut D, guid: [u8; 16], number: u32) -> Result<Coming, Stop>
    requires fresh { (D.view desk.old).changed ≡ nothing }
    ensures drafts { Drafts (D.view desk.old) (D.view desk.new) result }
    ensures answer { Comes (D.view desk.old) (D.view desk.new) (λ T c. named_property T guid number) result }
{
    let context = desk.context_before(NAMES)?;
    let names = names_of(desk.alloc(), &context)?;
    found_or_added(desk, context, names, guid, number)
}
