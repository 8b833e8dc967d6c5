//! The ids of new objects.
ghost use Rattle.std.specs.Prelude.{◌≡◌, ◌<◌, ◌^◌, true, max, IfErr, IfOk, IfSome, Ok};
ghost use Rattle.mail_tree.specs.Tree.{Shown, Tree};
ghost use Rattle.mail_draft.specs.Answers.{IsCaused, Looks, Says};
ghost use Rattle.mail_tree.specs.Ids.{greatest, is_used, new_id, next_index};
ghost use Rattle.mail_draft.specs.Walks.{GivesNext, are_kinds};

use crate::stop::Stop;
use node_port::{Keeper, NodeReader};
use pst_base::{Nid, make_nid};
use pst_outside::Outside;
use std::alloc::Global;

/// The last index that a node can have.
pub(crate) const LAST_INDEX: u64 = 134_217_727;

/// The node that follows an id.
fn node_after<W: Outside, K: NodeReader<W>>(
    keeper: &mut K,
    w: &mut W,
    at: Nid,
) -> Result<Option<Nid>, Stop>
    ensures rises { IfOk result (λ next. IfSome next (λ n. at.bits < n.bits)) }
    ensures fits { IfOk result (λ next. IfSome next (λ n. n.bits < 2 ^ 32)) }
    ensures answer { (T : Tree) → Shown (K.holds keeper.old (W.view w.old)) (K.last keeper.old) T → GivesNext T at.bits result }
    ensures looks { Looks (K.holds keeper.old (W.view w.old)) (K.holds keeper.new (W.view w.new)) (K.last keeper.old) (K.last keeper.new) (K.room keeper.old) (K.room keeper.new) (W.view w.old) (W.view w.new) }
    ensures cause { IfErr result (IsCaused K.has_disk (W.view w.old).disk_faults (W.view w.new).disk_faults) }
{
    let Some(next) = keeper.next_after(w, Some(at))? else {
        return Ok(None);
    };
    // A reader that tells no nodes may give any id.
    if next.bits > at.bits {
        Ok(Some(next))
    } else {
        Ok(None)
    }
}

/// The greatest of a counter and of the indexes of all nodes of these kinds.
fn greatest_index<W: Outside, K: NodeReader<W>>(
    keeper: &mut K,
    w: &mut W,
    counter: u32,
    kinds: &[u8],
) -> Result<u32, Stop>
    requires { are_kinds kinds.now ≡ true }
    ensures answer { (T : Tree) → Shown (K.holds keeper.old (W.view w.old)) (K.last keeper.old) T → Says (λ n. n) (Ok (max counter (greatest (is_used T kinds.now) LAST_INDEX))) result }
    ensures looks { Looks (K.holds keeper.old (W.view w.old)) (K.holds keeper.new (W.view w.new)) (K.last keeper.old) (K.last keeper.new) (K.room keeper.old) (K.room keeper.new) (W.view w.old) (W.view w.new) }
    ensures cause { IfErr result (IsCaused K.has_disk (W.view w.old).disk_faults (W.view w.new).disk_faults) }
{
    if u64::from(counter) > LAST_INDEX {
        return Ok(counter);
    }
    let mut greatest = counter;
    let mut at = make_nid(31, counter);
    while let Some(next) = node_after(keeper, w, at)? {
        if kinds.contains(&next.kind()) {
            greatest = next.index();
        }
        at = next;
    }
    Ok(greatest)
}

/// The index of the next object of a kind: it follows the counter of the kind and the indexes of all nodes of these kinds. It may be past the last one.
pub fn next_index<W: Outside, K: Keeper<W>>(
    _alloc: Global,
    keeper: &mut K,
    w: &mut W,
    kind: u8,
    kinds: &[u8],
) -> Result<u64, Stop>
    requires kind { kind < 32 }
    requires kinds { are_kinds kinds.now ≡ true }
    ensures answer { (T : Tree) → Shown (K.holds keeper.old (W.view w.old)) (K.last keeper.old) T → Says (λ n. n) (Ok (next_index T kind kinds.now)) result }
    ensures looks { Looks (K.holds keeper.old (W.view w.old)) (K.holds keeper.new (W.view w.new)) (K.last keeper.old) (K.last keeper.new) (K.room keeper.old) (K.room keeper.new) (W.view w.old) (W.view w.new) }
    ensures cause { IfErr result (IsCaused K.has_disk (W.view w.old).disk_faults (W.view w.new).disk_faults) }
{
    let counter = keeper.counts().last[kind as usize];
    let greatest = greatest_index(keeper, w, counter, kinds)?;
    Ok(u64::from(greatest) + 1)
}

/// The id of a kind, below 32, and an index; the last index stands for all past it.
pub fn new_id(kind: u8, index: u64) -> Nid
    requires { kind < 32 }
    ensures { result.bits ≡ new_id kind index }
{
    make_nid(kind, index.min(LAST_INDEX) as u32)
}
