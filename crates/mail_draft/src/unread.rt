//! Messages that are unread.
ghost use Rattle.std.specs.Prelude.{◌≡◌, ◌≤◌, IfErr, if◌then◌else◌};
ghost use Rattle.mail_tree.specs.Changing.{now_at};
ghost use Rattle.mail_tree.specs.Flags.{AreFlags};
ghost use Rattle.mail_tree.specs.Tree.{Shown, Tree, object_at};
ghost use Rattle.mail_draft.specs.Answers.{IsCaused, Looks, Says};
ghost use Rattle.mail_draft.specs.Drafts.{changed_of};
ghost use Rattle.mail_draft.specs.Unread.{unread_of};

use crate::draft::Draft;
use crate::glance::unread_at;
use crate::read::as_message;
use crate::stop::Stop;
use crate::values::is_read;
use mail_tree::Flags;
use node_port::NodeReader;
use pst_base::Nid;
use pst_outside::Outside;
use std::alloc::Global;

/// Whether the message that stands at an id in the nodes is unread. Its node is read only where nothing is known of it, and without its subnodes.
fn kept_unread<W: Outside, K: NodeReader<W>>(
    alloc: Global,
    keeper: &mut K,
    w: &mut W,
    flags: &Flags,
    nid: Nid,
) -> Result<bool, Stop>
    ensures answer { (T : Tree) → Shown (K.holds keeper.old (W.view w.old)) (K.last keeper.old) T → AreFlags (object_at T) flags.now → Says (λ b. b) (unread_of (object_at T nid.bits)) result }
    ensures looks { Looks (K.holds keeper.old (W.view w.old)) (K.holds keeper.new (W.view w.new)) (K.last keeper.old) (K.last keeper.new) (K.room keeper.old) (K.room keeper.new) (W.view w.old) (W.view w.new) }
    ensures cause { IfErr result (IsCaused K.has_disk (W.view w.old).disk_faults (W.view w.new).disk_faults) }
{
    if let Some(unread) = flags.get(nid.bits) {
        return Ok(unread);
    }
    unread_at(alloc, keeper, w, nid)
}

/// Whether the message at an id is unread.
pub(crate) fn is_unread<W: Outside, K: NodeReader<W>>(
    alloc: Global,
    keeper: &mut K,
    w: &mut W,
    draft: &Draft,
    flags: &Flags,
    nid: Nid,
) -> Result<bool, Stop>
    ensures answer { (T : Tree) → Shown (K.holds keeper.old (W.view w.old)) (K.last keeper.old) T → AreFlags (object_at T) flags.now → Says (λ b. b) (unread_of (now_at T (changed_of draft.now) nid.bits)) result }
    ensures looks { Looks (K.holds keeper.old (W.view w.old)) (K.holds keeper.new (W.view w.new)) (K.last keeper.old) (K.last keeper.new) (K.room keeper.old) (K.room keeper.new) (W.view w.old) (W.view w.new) }
    ensures cause { IfErr result (IsCaused K.has_disk (W.view w.old).disk_faults (W.view w.new).disk_faults) }
{
    let Some(object) = draft.get(nid) else {
        return kept_unread(alloc, keeper, w, flags, nid);
    };
    match as_message(object) {
        Some(mail) => Ok(!is_read(&mail.message().props)),
        None => Err(Stop::formless()),
    }
}

/// 1 where it holds, else 0.
pub(crate) fn one_if(holds: bool) -> u64
    ensures value { result ≡ (if holds then 1 else 0) }
    ensures few { result ≤ 1 }
{
    if holds { 1 } else { 0 }
}
