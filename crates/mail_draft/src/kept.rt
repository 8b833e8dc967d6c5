//! What the keeper's nodes are.
ghost use Rattle.std.specs.Prelude.{IfErr};
ghost use Rattle.mail_tree.specs.Changing.{as_context, as_message, as_table, known};
ghost use Rattle.mail_tree.specs.Tree.{Shown, Tree, object_at};
ghost use Rattle.mail_draft.specs.Answers.{IsCaused, Looks, Says};
ghost use Rattle.mail_draft.specs.Standing.{HasNode};

use crate::stop::Stop;
use mail_objects::{Context, Mail, TableNode, read_context, read_mail, read_table};
use node_port::{NodeReader, NodeRec};
use pst_base::Nid;
use pst_outside::Outside;
use std::alloc::Global;

/// The node at an id, `None` where there is none.
fn node_at<W: Outside, K: NodeReader<W>>(
    alloc: Global,
    keeper: &mut K,
    w: &mut W,
    nid: Nid,
) -> Result<Option<NodeRec>, Stop>
    ensures answer { (T : Tree) → Shown (K.holds keeper.old (W.view w.old)) (K.last keeper.old) T → HasNode T nid.bits result }
    ensures looks { Looks (K.holds keeper.old (W.view w.old)) (K.holds keeper.new (W.view w.new)) (K.last keeper.old) (K.last keeper.new) (K.room keeper.old) (K.room keeper.new) (W.view w.old) (W.view w.new) }
    ensures cause { IfErr result (IsCaused K.has_disk (W.view w.old).disk_faults (W.view w.new).disk_faults) }
{
    Ok(keeper.get(alloc, w, nid)?)
}

/// The properties that stand at an id in the nodes, as a folder's.
pub fn kept_context<W: Outside, K: NodeReader<W>>(
    alloc: Global,
    keeper: &mut K,
    w: &mut W,
    nid: Nid,
) -> Result<Context, Stop>
    ensures answer { (T : Tree) → Shown (K.holds keeper.old (W.view w.old)) (K.last keeper.old) T → Says (λ c. c) (known (as_context (object_at T nid.bits))) result }
    ensures looks { Looks (K.holds keeper.old (W.view w.old)) (K.holds keeper.new (W.view w.new)) (K.last keeper.old) (K.last keeper.new) (K.room keeper.old) (K.room keeper.new) (W.view w.old) (W.view w.new) }
    ensures cause { IfErr result (IsCaused K.has_disk (W.view w.old).disk_faults (W.view w.new).disk_faults) }
{
    let Some(node) = node_at(alloc, keeper, w, nid)? else {
        return Err(Stop::formless());
    };
    match read_context(alloc, &node)? {
        Some(context) => Ok(context),
        None => Err(Stop::formless()),
    }
}

/// The table that stands at an id in the nodes.
pub fn kept_table<W: Outside, K: NodeReader<W>>(
    alloc: Global,
    keeper: &mut K,
    w: &mut W,
    nid: Nid,
) -> Result<TableNode, Stop>
    ensures answer { (T : Tree) → Shown (K.holds keeper.old (W.view w.old)) (K.last keeper.old) T → Says (λ t. t) (known (as_table (object_at T nid.bits))) result }
    ensures looks { Looks (K.holds keeper.old (W.view w.old)) (K.holds keeper.new (W.view w.new)) (K.last keeper.old) (K.last keeper.new) (K.room keeper.old) (K.room keeper.new) (W.view w.old) (W.view w.new) }
    ensures cause { IfErr result (IsCaused K.has_disk (W.view w.old).disk_faults (W.view w.new).disk_faults) }
{
    let Some(node) = node_at(alloc, keeper, w, nid)? else {
        return Err(Stop::formless());
    };
    match read_table(alloc, &node)? {
        Some(table) => Ok(table),
        None => Err(Stop::formless()),
    }
}

/// The message that stands at an id in the nodes.
pub fn kept_message<W: Outside, K: NodeReader<W>>(
    alloc: Global,
    keeper: &mut K,
    w: &mut W,
    nid: Nid,
) -> Result<Mail, Stop>
    ensures answer { (T : Tree) → Shown (K.holds keeper.old (W.view w.old)) (K.last keeper.old) T → Says (λ m. m) (known (as_message (object_at T nid.bits))) result }
    ensures looks { Looks (K.holds keeper.old (W.view w.old)) (K.holds keeper.new (W.view w.new)) (K.last keeper.old) (K.last keeper.new) (K.room keeper.old) (K.room keeper.new) (W.view w.old) (W.view w.new) }
    ensures cause { IfErr result (IsCaused K.has_disk (W.view w.old).disk_faults (W.view w.new).disk_faults) }
{
    let Some(node) = node_at(alloc, keeper, w, nid)? else {
        return Err(Stop::formless());
    };
    match read_mail(alloc, nid, &node)? {
        Some(message) => Ok(message),
        None => Err(Stop::formless()),
    }
}
