//! What stands at an id after the changes of a draft.
ghost use Rattle.std.specs.Prelude.{◌≡◌, IfErr, option_copied};
ghost use Rattle.mail_tree.specs.Tree.{Shown, Tree};
ghost use Rattle.mail_tree.specs.Changing.{as_context, as_message, as_table, context_at, message_at, table_at};
ghost use Rattle.mail_draft.specs.Answers.{IsCaused, Looks, Says};
ghost use Rattle.mail_draft.specs.Drafts.{changed_of};

use crate::draft::Draft;
use crate::kept::{kept_context, kept_message, kept_table};
use crate::stop::Stop;
use mail_objects::{Context, Mail, Object, TableNode};
use node_port::NodeReader;
use pst_base::Nid;
use pst_outside::Outside;
use std::alloc::Global;

/// The object as properties, if it is there and is that.
fn as_context(object: &Option<Object>) -> Option<&Context>
    ensures { option_copied result ≡ as_context object.now }
{
    match object {
        Some(Object::Context(context)) => Some(context),
        _ => None,
    }
}

/// The properties at an id, as a folder's.
pub fn context_at<W: Outside, K: NodeReader<W>>(
    alloc: Global,
    keeper: &mut K,
    w: &mut W,
    draft: &Draft,
    nid: Nid,
) -> Result<Context, Stop>
    ensures answer { (T : Tree) → Shown (K.holds keeper.old (W.view w.old)) (K.last keeper.old) T → Says (λ c. c) (context_at T (changed_of draft.now) nid.bits) result }
    ensures looks { Looks (K.holds keeper.old (W.view w.old)) (K.holds keeper.new (W.view w.new)) (K.last keeper.old) (K.last keeper.new) (K.room keeper.old) (K.room keeper.new) (W.view w.old) (W.view w.new) }
    ensures cause { IfErr result (IsCaused K.has_disk (W.view w.old).disk_faults (W.view w.new).disk_faults) }
{
    let Some(object) = draft.get(nid) else {
        return kept_context(alloc, keeper, w, nid);
    };
    match as_context(object) {
        Some(context) => Ok(context.copy(alloc)?),
        None => Err(Stop::formless()),
    }
}

/// The object as a table, if it is there and is one.
pub fn as_table(object: &Option<Object>) -> Option<&TableNode>
    ensures { option_copied result ≡ as_table object.now }
{
    match object {
        Some(Object::Table(table)) => Some(table),
        _ => None,
    }
}

/// The table at an id.
pub fn table_at<W: Outside, K: NodeReader<W>>(
    alloc: Global,
    keeper: &mut K,
    w: &mut W,
    draft: &Draft,
    nid: Nid,
) -> Result<TableNode, Stop>
    ensures answer { (T : Tree) → Shown (K.holds keeper.old (W.view w.old)) (K.last keeper.old) T → Says (λ t. t) (table_at T (changed_of draft.now) nid.bits) result }
    ensures looks { Looks (K.holds keeper.old (W.view w.old)) (K.holds keeper.new (W.view w.new)) (K.last keeper.old) (K.last keeper.new) (K.room keeper.old) (K.room keeper.new) (W.view w.old) (W.view w.new) }
    ensures cause { IfErr result (IsCaused K.has_disk (W.view w.old).disk_faults (W.view w.new).disk_faults) }
{
    let Some(object) = draft.get(nid) else {
        return kept_table(alloc, keeper, w, nid);
    };
    match as_table(object) {
        Some(table) => Ok(table.copy(alloc)?),
        None => Err(Stop::formless()),
    }
}

/// The object as a message, if it is there and is one.
pub fn as_message(object: &Option<Object>) -> Option<&Mail>
    ensures { option_copied result ≡ as_message object.now }
{
    match object {
        Some(Object::Message(message)) => Some(message),
        _ => None,
    }
}

/// The message at an id.
pub fn message_at<W: Outside, K: NodeReader<W>>(
    alloc: Global,
    keeper: &mut K,
    w: &mut W,
    draft: &Draft,
    nid: Nid,
) -> Result<Mail, Stop>
    ensures answer { (T : Tree) → Shown (K.holds keeper.old (W.view w.old)) (K.last keeper.old) T → Says (λ m. m) (message_at T (changed_of draft.now) nid.bits) result }
    ensures looks { Looks (K.holds keeper.old (W.view w.old)) (K.holds keeper.new (W.view w.new)) (K.last keeper.old) (K.last keeper.new) (K.room keeper.old) (K.room keeper.new) (W.view w.old) (W.view w.new) }
    ensures cause { IfErr result (IsCaused K.has_disk (W.view w.old).disk_faults (W.view w.new).disk_faults) }
{
    let Some(object) = draft.get(nid) else {
        return kept_message(alloc, keeper, w, nid);
    };
    match as_message(object) {
        Some(message) => Ok(message.copy(alloc)?),
        None => Err(Stop::formless()),
    }
}
