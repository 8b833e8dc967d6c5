//! What a store knows of its tree after a command.
ghost use Rattle.std.specs.Prelude.{◌≡◌, ℕ, true, IfErr, IfOk, OnOk};
ghost use Rattle.mail_tree.specs.Changing.{Changed};
ghost use Rattle.mail_tree.specs.Flags.{SameFlags, has_room, known_note};
ghost use Rattle.mail_draft.specs.Drafts.{changed_of};
ghost use Rattle.mail_draft.specs.Outcomes.{places_after};
ghost use Rattle.mail_draft.specs.Unread.{flag_changes};
ghost use Rattle.mail_draft.specs.declared.stop.Stop.TheVariants as stop;
ghost use Rattle.mail_store.specs.Knowing.{GetsRoom, HasRooms, note_after};

use mail_draft::{Draft, Stop, flag_changes};
use mail_tree::{Flags, Known, Note, Places};
use std::alloc::{AllocError, Global};

/// Makes an entry for an object, if something is to be known of it. What is known stays.
fn make_room(flags: &mut Flags, change: &(u32, Option<Note>)) -> Result<(), AllocError>
    ensures same { SameFlags flags.old flags.new }
    ensures kept { (q : ℕ) → has_room q flags.old ≡ true → has_room q flags.new ≡ true }
    ensures room { OnOk result (GetsRoom flags.new change.now) }
{
    if change.1.is_some() {
        flags.make_room(change.0)?;
    }
    Ok(())
}

/// Makes an entry for each object of which something is to be known. What is known stays.
fn make_rooms(flags: &mut Flags, changes: &[(u32, Option<Note>)]) -> Result<(), AllocError>
    ensures same { SameFlags flags.old flags.new }
    ensures rooms { OnOk result (HasRooms flags.new changes.now) }
{
    for change in changes {
        make_room(flags, change)?;
    }
    Ok(())
}

/// What is to be known after a draft's changes, for which there is room then. What is known stays. The error is `Memory`.
pub(crate) fn plan_flags(
    alloc: Global,
    flags: &mut Flags,
    draft: &Draft,
) -> Result<Vec<(u32, Option<Note>)>, Stop>
    ensures changes { IfOk result (λ changes. changes.items ≡ flag_changes (changed_of draft.now)) }
    ensures rooms { IfOk result (λ changes. HasRooms flags.new changes.items) }
    ensures same { SameFlags flags.old flags.new }
    ensures stops { IfErr result (λ s. s ≡ stop.Memory) }
{
    let changes = flag_changes(alloc, draft)?;
    make_rooms(flags, changes.as_slice())?;
    Ok(changes)
}

/// The places after a command.
fn settle_places(places: &mut Places, after: Option<Places>)
    ensures { places.new ≡ places_after places.old after }
{
    match after {
        Some(after) => *places = after,
        None => (),
    }
}

/// What is known of objects after a command that makes these changes. Takes no memory.
fn settle_flags(flags: &mut Flags, changes: Vec<(u32, Option<Note>)>)
    ensures { (D : Changed) → changes.items ≡ flag_changes D → (q : ℕ) → known_note q flags.new ≡ note_after D q flags.old }
{
    for (nid, note) in changes {
        flags.set(nid, note);
    }
}

/// What is known after a command. Takes no memory.
pub(crate) fn settle_known(
    known: &mut Known,
    places: Option<Places>,
    flags: Vec<(u32, Option<Note>)>,
)
    ensures places { known.new.places ≡ places_after known.old.places places }
    ensures flags { (D : Changed) → flags.items ≡ flag_changes D → (q : ℕ) → known_note q known.new.flags ≡ note_after D q known.old.flags }
{
    settle_places(&mut known.places, places);
    settle_flags(&mut known.flags, flags);
}
