//! The room for which a draft asks.
ghost use Rattle.std.specs.Prelude.{◌≡◌, ◌^◌, min};
ghost use Rattle.mail_draft.specs.Space.{space_needed, space_of};
ghost use Rattle.mail_draft.specs.Drafts.{changed_of};

use crate::draft::Draft;
use mail_objects::Object;
use mail_objects::write_limits::{add, kept_space, message_space, props_space, table_space};

/// The blocks of an object that is put; 3 for one that is to go.
#[tactic(auto, unfolding(crate::specs::Space::space_of))]
fn object_space(object: &Option<Object>) -> u64
    ensures { result ≡ min (space_of object.now) (2 ^ 60) }
{
    match object {
        Some(Object::Context(context)) => add(
            props_space(context.props()),
            kept_space(context.kept()),
        ),
        Some(Object::Table(table)) => table_space(table.table()),
        Some(Object::Message(mail)) => message_space(mail.message()),
        Some(Object::Bare(_)) => 1,
        None => 3,
    }
}

/// How many blocks the changes of a draft ask for, up to 2^60.
pub fn space_needed(draft: &Draft) -> u64
    ensures { result ≡ space_needed (changed_of draft.now) }
{
    let mut total = 0;
    for (nid, object) in &draft.objects {
        let _nid = nid;
        total = add(total, object_space(object));
    }
    total
}
