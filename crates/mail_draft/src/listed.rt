//! The messages that a folder's table lists.
ghost use Rattle.std.specs.Prelude.{◌≡◌, IfErr, IfOk};
ghost use Rattle.mail_tree.specs.Settling.{is_message_row, message_ids};
ghost use Rattle.mail_tree.specs.Tree.{Shown, Tree, object_at};
ghost use Rattle.mail_tree.specs.Changing.{now_at};
ghost use Rattle.mail_draft.specs.Answers.{IsCaused, Looks, Says};
ghost use Rattle.mail_draft.specs.Drafts.{changed_of};
ghost use Rattle.mail_draft.specs.Listed.{listed_in};

use crate::draft::Draft;
use crate::kept::kept_table;
use crate::read::as_table;
use crate::stop::Stop;
use mapi_values::{Props, Table};
use node_port::NodeReader;
use pst_base::Nid;
use pst_outside::Outside;
use std::alloc::{AllocError, Global};

/// Whether a row is that of a message.
fn is_message_row(row: &(u32, Props)) -> bool
    ensures { result ≡ is_message_row row.now }
{
    row.0 % 32 == 4
}

/// The ids of the messages that a folder's table lists.
pub fn message_ids(alloc: Global, table: &Table) -> Result<Vec<u32>, AllocError>
    ensures { IfOk result (λ ids. ids.items ≡ message_ids table.now) }
{
    let mut ids = Vec::new(alloc);
    for row in table.rows() {
        if is_message_row(row) {
            ids.push(row.0)?;
        }
    }
    Ok(ids)
}

/// The ids of the messages that the table lists which stands at an id in the nodes.
fn kept_message_ids<W: Outside, K: NodeReader<W>>(
    alloc: Global,
    keeper: &mut K,
    w: &mut W,
    nid: Nid,
) -> Result<Vec<u32>, Stop>
    ensures answer { (T : Tree) → Shown (K.holds keeper.old (W.view w.old)) (K.last keeper.old) T → Says (λ ids. ids.items) (listed_in (object_at T nid.bits)) result }
    ensures looks { Looks (K.holds keeper.old (W.view w.old)) (K.holds keeper.new (W.view w.new)) (K.last keeper.old) (K.last keeper.new) (K.room keeper.old) (K.room keeper.new) (W.view w.old) (W.view w.new) }
    ensures cause { IfErr result (IsCaused K.has_disk (W.view w.old).disk_faults (W.view w.new).disk_faults) }
{
    let node = kept_table(alloc, keeper, w, nid)?;
    Ok(message_ids(alloc, node.table())?)
}

/// The ids of the messages that the table at an id lists. A table of the draft isn't copied.
pub fn message_ids_at<W: Outside, K: NodeReader<W>>(
    alloc: Global,
    keeper: &mut K,
    w: &mut W,
    draft: &Draft,
    nid: Nid,
) -> Result<Vec<u32>, Stop>
    ensures answer { (T : Tree) → Shown (K.holds keeper.old (W.view w.old)) (K.last keeper.old) T → Says (λ ids. ids.items) (listed_in (now_at T (changed_of draft.now) nid.bits)) result }
    ensures looks { Looks (K.holds keeper.old (W.view w.old)) (K.holds keeper.new (W.view w.new)) (K.last keeper.old) (K.last keeper.new) (K.room keeper.old) (K.room keeper.new) (W.view w.old) (W.view w.new) }
    ensures cause { IfErr result (IsCaused K.has_disk (W.view w.old).disk_faults (W.view w.new).disk_faults) }
{
    let Some(object) = draft.get(nid) else {
        return kept_message_ids(alloc, keeper, w, nid);
    };
    match as_table(object) {
        Some(node) => Ok(message_ids(alloc, node.table())?),
        None => Err(Stop::formless()),
    }
}
