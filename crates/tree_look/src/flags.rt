//! What is kept of the messages and folders that were looked at.
ghost use Rattle.std.specs.Prelude.{◌≡◌, ◌==◌, false, ℕ, OnErr, OnOk, Some, if◌then◌else◌};
ghost use Rattle.mapi_values.specs.Characters.{folded};
ghost use Rattle.mail_tree.specs.declared.note.Note.TheVariants.{Named, Unread};
ghost use Rattle.mail_tree.specs.Flags.{SameFlags, known_note};
ghost use Rattle.mail_tree.specs.Values.{name_of};
ghost use Rattle.tree_look.specs.Seeing.{KeepsName};

use mail_draft::folded_name;
use mail_tree::{Flags, Note};
use mapi_values::Props;
use std::alloc::{AllocError, Global};

/// Keeps what is known of an object. With an `Err` what is known stays.
fn keep(flags: &mut Flags, nid: u32, note: Note) -> Result<(), AllocError>
    ensures ok { OnOk result ((q : ℕ) → known_note q flags.new ≡ (if q == nid then Some note else known_note q flags.old)) }
    ensures err { OnErr result (SameFlags flags.old flags.new) }
{
    flags.make_room(nid)?;
    flags.set(nid, Some(note));
    Ok(())
}

/// Keeps whether a message is unread. With an `Err` what is known stays.
pub(crate) fn keep_flag(flags: &mut Flags, message: u32, unread: bool) -> Result<(), AllocError>
    ensures ok { OnOk result ((q : ℕ) → known_note q flags.new ≡ (if q == message then Some (Unread unread) else known_note q flags.old)) }
    ensures err { OnErr result (SameFlags flags.old flags.new) }
{
    keep(flags, message, Note::Unread(unread))
}

/// Keeps the name of a folder, its case folded. Whether a message is unread stays known.
pub(crate) fn keep_name(
    alloc: Global,
    flags: &mut Flags,
    folder: u32,
    props: &Props,
) -> Result<(), AllocError>
    ensures { OnOk result (KeepsName folder (folded false (name_of props.now)) flags.old flags.new) }
{
    if flags.get(folder).is_some() {
        return Ok(());
    }
    let name = folded_name(alloc, props)?;
    keep(flags, folder, Note::Named(name))
}
