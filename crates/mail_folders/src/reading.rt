//! What stands in the nodes, before anything is changed, for callers that have no desk.
ghost use Rattle.std.specs.Prelude.{IfErr, Ok};
ghost use Rattle.mail_tree.specs.Tree.{Shown, Tree};
ghost use Rattle.mail_tree.specs.Changing.{context_at, message_at, nothing, table_at};
ghost use Rattle.mail_tree.specs.Ids.{is_taken};
ghost use Rattle.mail_draft.specs.Answers.{IsCaused, Looks, Says};

use mail_draft::{Draft, Stop};
use mail_tree::mail_objects::{Context, Mail, TableNode};
use node_port::NodeReader;
use pst_base::Nid;
use pst_outside::Outside;
use std::alloc::Global;

/// The properties at an id, as a folder's.
pub fn context_in<W: Outside, K: NodeReader<W>>(
    alloc: Global,
    keeper: &mut K,
    w: &mut W,
    nid: Nid,
) -> Result<Context, Stop>
    ensures answer { (T : Tree) → Shown (K.holds keeper.old (W.view w.old)) (K.last keeper.old) T → Says (λ c. c) (context_at T nothing nid.bits) result }
    ensures looks { Looks (K.holds keeper.old (W.view w.old)) (K.holds keeper.new (W.view w.new)) (K.last keeper.old) (K.last keeper.new) (K.room keeper.old) (K.room keeper.new) (W.view w.old) (W.view w.new) }
    ensures cause { IfErr result (IsCaused K.has_disk (W.view w.old).disk_faults (W.view w.new).disk_faults) }
{
    mail_draft::context_at(alloc, keeper, w, &Draft::new(alloc), nid)
}

/// The table at an id.
pub fn table_in<W: Outside, K: NodeReader<W>>(
    alloc: Global,
    keeper: &mut K,
    w: &mut W,
    nid: Nid,
) -> Result<TableNode, Stop>
    ensures answer { (T : Tree) → Shown (K.holds keeper.old (W.view w.old)) (K.last keeper.old) T → Says (λ t. t) (table_at T nothing nid.bits) result }
    ensures looks { Looks (K.holds keeper.old (W.view w.old)) (K.holds keeper.new (W.view w.new)) (K.last keeper.old) (K.last keeper.new) (K.room keeper.old) (K.room keeper.new) (W.view w.old) (W.view w.new) }
    ensures cause { IfErr result (IsCaused K.has_disk (W.view w.old).disk_faults (W.view w.new).disk_faults) }
{
    mail_draft::table_at(alloc, keeper, w, &Draft::new(alloc), nid)
}

/// The message at an id.
pub fn message_in<W: Outside, K: NodeReader<W>>(
    alloc: Global,
    keeper: &mut K,
    w: &mut W,
    nid: Nid,
) -> Result<Mail, Stop>
    ensures answer { (T : Tree) → Shown (K.holds keeper.old (W.view w.old)) (K.last keeper.old) T → Says (λ m. m) (message_at T nothing nid.bits) result }
    ensures looks { Looks (K.holds keeper.old (W.view w.old)) (K.holds keeper.new (W.view w.new)) (K.last keeper.old) (K.last keeper.new) (K.room keeper.old) (K.room keeper.new) (W.view w.old) (W.view w.new) }
    ensures cause { IfErr result (IsCaused K.has_disk (W.view w.old).disk_faults (W.view w.new).disk_faults) }
{
    mail_draft::message_at(alloc, keeper, w, &Draft::new(alloc), nid)
}

/// Whether a node stands at an id.
pub fn is_taken<W: Outside, K: NodeReader<W>>(
    alloc: Global,
    keeper: &mut K,
    w: &mut W,
    nid: Nid,
) -> Result<bool, Stop>
    ensures answer { (T : Tree) → Shown (K.holds keeper.old (W.view w.old)) (K.last keeper.old) T → Says (λ b. b) (Ok (is_taken T nid.bits)) result }
    ensures looks { Looks (K.holds keeper.old (W.view w.old)) (K.holds keeper.new (W.view w.new)) (K.last keeper.old) (K.last keeper.new) (K.room keeper.old) (K.room keeper.new) (W.view w.old) (W.view w.new) }
    ensures cause { IfErr result (IsCaused K.has_disk (W.view w.old).disk_faults (W.view w.new).disk_faults) }
{
    let node = keeper.get(alloc, w, nid)?;
    Ok(node.is_some())
}
