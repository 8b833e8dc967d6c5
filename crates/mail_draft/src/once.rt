//! Objects of the nodes, each of which is read once.
ghost use Rattle.std.specs.Prelude.{IfErr};
ghost use Rattle.mail_tree.specs.Changing.{as_context, found, known};
ghost use Rattle.mail_tree.specs.Messages.{parent_at};
ghost use Rattle.command_text.specs.declared.reply.CommandRefusal.TheVariants as refusal;
ghost use Rattle.mail_tree.specs.Tree.{Shown, Tree, object_at};
ghost use Rattle.mail_draft.specs.Answers.{IsCaused, Looks, Says};
ghost use Rattle.mail_draft.specs.Seen.{AreThere};

use crate::kept::kept_context;
use crate::seen::Seen;
use crate::stop::Stop;
use command_text::CommandRefusal;
use mail_objects::Context;
use node_port::NodeReader;
use pst_base::Nid;
use pst_outside::Outside;
use std::alloc::Global;

/// The properties that stand at an id in the nodes. They are read once.
pub(crate) fn context_once<W: Outside, K: NodeReader<W>>(
    alloc: Global,
    keeper: &mut K,
    w: &mut W,
    seen: &mut Seen,
    nid: Nid,
) -> Result<Context, Stop>
    ensures answer { (T : Tree) → Shown (K.holds keeper.old (W.view w.old)) (K.last keeper.old) T → AreThere (object_at T) seen.old → Says (λ c. c) (known (as_context (object_at T nid.bits))) result }
    ensures there { (T : Tree) → Shown (K.holds keeper.old (W.view w.old)) (K.last keeper.old) T → AreThere (object_at T) seen.old → AreThere (object_at T) seen.new }
    ensures looks { Looks (K.holds keeper.old (W.view w.old)) (K.holds keeper.new (W.view w.new)) (K.last keeper.old) (K.last keeper.new) (K.room keeper.old) (K.room keeper.new) (W.view w.old) (W.view w.new) }
    ensures cause { IfErr result (IsCaused K.has_disk (W.view w.old).disk_faults (W.view w.new).disk_faults) }
{
    if let Some(context) = seen.get(nid) {
        return Ok(context.copy(alloc)?);
    }
    let context = kept_context(alloc, keeper, w, nid)?;
    seen.keep(nid, context.copy(alloc)?)?;
    Ok(context)
}

/// The parent of the node with this id. Refused where there is none.
pub(crate) fn parent_at<W: Outside, K: NodeReader<W>>(
    alloc: Global,
    keeper: &mut K,
    w: &mut W,
    node: Nid,
) -> Result<Nid, Stop>
    ensures answer { (T : Tree) → Shown (K.holds keeper.old (W.view w.old)) (K.last keeper.old) T → Says (λ n. n.bits) (found refusal.Object (parent_at T node.bits)) result }
    ensures looks { Looks (K.holds keeper.old (W.view w.old)) (K.holds keeper.new (W.view w.new)) (K.last keeper.old) (K.last keeper.new) (K.room keeper.old) (K.room keeper.new) (W.view w.old) (W.view w.new) }
    ensures cause { IfErr result (IsCaused K.has_disk (W.view w.old).disk_faults (W.view w.new).disk_faults) }
{
    match keeper.get_content(alloc, w, node)? {
        Some(node) => Ok(node.parent),
        None => Err(Stop::Refused(CommandRefusal::Object)),
    }
}
