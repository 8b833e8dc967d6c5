//! What is to be known of objects after a draft's changes.
ghost use Rattle.std.specs.Prelude.{◌≡◌, IfOk};
ghost use Rattle.mail_draft.specs.Drafts.{changed_of};
ghost use Rattle.mail_draft.specs.Unread.{flag_changes, flag_of, note_of};

use crate::draft::Draft;
use crate::read::as_message;
use crate::values::{folded_name, is_read};
use mail_objects::Object;
use mail_tree::Note;
use std::alloc::{AllocError, Global};

/// Whether an object that is put is an unread message, or nothing where it is no message, or goes.
pub fn flag_of(object: &Option<Object>) -> Option<bool>
    ensures { result ≡ flag_of object.now }
{
    match as_message(object) {
        Some(mail) => Some(!is_read(&mail.message().props)),
        None => None,
    }
}

/// What is to be known of an object that is put: of a message whether it is unread, of properties the name among them. Of another, or one that goes, it is nothing. The error: memory ran out.
fn note_of(alloc: Global, object: &Option<Object>) -> Result<Option<Note>, AllocError>
    ensures { IfOk result (λ note. note ≡ note_of object.now) }
{
    match object {
        Some(Object::Message(mail)) => Ok(Some(Note::Unread(!is_read(&mail.message().props)))),
        Some(Object::Context(context)) => {
            let name = folded_name(alloc, context.props())?;
            Ok(Some(Note::Named(name)))
        }
        _ => Ok(None),
    }
}

/// What is to be known of all that a draft puts or removes, by their ids: of a message whether it is unread, of properties the name among them, and nothing of another, or what goes. The error: memory ran out.
pub fn flag_changes(alloc: Global, draft: &Draft) -> Result<Vec<(u32, Option<Note>)>, AllocError>
    ensures { IfOk result (λ cs. cs.items ≡ flag_changes (changed_of draft.now)) }
{
    let mut changes = Vec::with_capacity(alloc, draft.objects.len())?;
    for (nid, object) in &draft.objects {
        let note = note_of(alloc, object)?;
        changes.push((*nid, note))?;
    }
    Ok(changes)
}
