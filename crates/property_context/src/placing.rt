//! Placing the subnodes of long values among those of a node.
ghost use Rattle.std.specs.Prelude.{◌≡◌, ◌+◌, ◌*◌, ◌≤◌, ◌<◌, ◌==◌, ◌^◌, ◌∷◌, ◌++◌, ℕ, List, [], if◌then◌else◌, true, IfOk, OnOk, MatchOption};
ghost use Rattle.pst_base.specs.Flat.{Flat};
ghost use Rattle.pst_base.specs.Subs.{flattened};
ghost use Rattle.write_limits.specs.Limits.{direct};
ghost use Rattle.node_values.specs.Subnodes.{ids_ascend};
ghost use Rattle.node_values.specs.Named.{KeepsData};
ghost use Rattle.property_context.specs.Placing.{IsAhead, Places, Placing, placed_data, span};

use node_values::cut;
use pst_base::{Nid, Sub, Subs};
use std::alloc::{AllocError, Global};
use std::collections::VecDeque;

/// The first id of a subnode of a long value, whose low five bits are 1Fh.
const FIRST: u32 = 0x3F;

/// The subnodes that were placed, what is left of those of the node, and the next id that a long value may get.
#[derive(Debug, Drop)]
pub struct Placer {
    pub placed: Vec<Sub>,
    pub left: VecDeque<Sub>,
    pub free: u32,
}

/// Takes the first subnode that is left, unless its id is above the free one.
fn next_up(p: &mut Placer) -> Option<Sub>
    ensures placed { p.new.placed ≡ p.old.placed }
    ensures free { p.new.free ≡ p.old.free }
    ensures left { MatchOption result (p.new.left.items ≡ p.old.left.items) (λ s. p.old.left.items ≡ s ∷ p.new.left.items) }
    ensures first { MatchOption result (IsAhead p.old.free p.old.left.items) (λ s. s.nid.bits ≤ p.old.free) }
{
    let next = p.left.front()?;
    if p.free < next.nid.bits {
        return None;
    }
    p.left.pop_front()
}

/// Places a subnode of the rest. If it has the free id, the next is free.
fn pass(p: &mut Placer, sub: Sub) -> Result<(), AllocError>
    requires { p.old.free + 32 < 2 ^ 32 }
    ensures placed { OnOk result (p.new.placed.items ≡ p.old.placed.items ++ sub ∷ []) }
    ensures left { p.new.left ≡ p.old.left }
    ensures free { p.new.free ≡ (if sub.nid.bits == p.old.free then p.old.free + 32 else p.old.free) }
{
    if sub.nid.bits == p.free {
        p.free += 32;
    }
    p.placed.push(sub)?;
    Ok(())
}

/// Places the subnodes of the rest with ids up to the free one, which goes on past those.
fn pass_all(p: &mut Placer) -> Result<(), AllocError>
    requires { span p.old + 32 < 2 ^ 32 }
    ensures span { OnOk result (span p.new ≤ span p.old) }
    ensures ahead { OnOk result (IsAhead p.new.free p.new.left.items) }
    ensures kept { OnOk result (KeepsData (placed_data p.old) (placed_data p.new)) }
    ensures placing { OnOk result ((long : List (ℕ × List ℕ)) (rest : List Flat) → Placing p.old long rest → Placing p.new long rest) }
{
    'subs: while let Some(sub) = next_up(p) {
        pass(p, sub)?;
    }
    Ok(())
}

/// Places a long value of these bytes, and gives the id of its subnode.
pub fn place(alloc: Global, p: &mut Placer, bytes: &[u8]) -> Result<u32, AllocError>
    requires span { span p.old + 32 < 2 ^ 32 }
    requires placing { (long : List (ℕ × List ℕ)) × (rest : List Flat) × Placing p.old long rest }
    ensures { IfOk result (λ nid. Places p.old p.new nid bytes.now) }
{
    pass_all(p)?;
    let nid = p.free;
    p.placed.push(Sub {
        nid: Nid { bits: nid },
        blocks: cut(alloc, bytes)?,
        subs: Subs::new(alloc),
    })?;
    p.free += 32;
    Ok(nid)
}

/// Begins with the subnodes of a node, whose ids ascend strictly.
pub fn begin(alloc: Global, rest: Subs) -> Placer
    requires { ids_ascend 0 rest ≡ true }
    ensures placing { Placing result [] rest }
    ensures span { span result ≡ 63 + 32 * direct rest }
{
    Placer {
        placed: Vec::new(alloc),
        left: VecDeque::from(rest.into_vec()),
        free: FIRST,
    }
}

/// All subnodes: those that were placed, and behind them those that are left.
pub fn all_placed(p: Placer) -> Result<Subs, AllocError>
    ensures { IfOk result (λ subs. subs ≡ flattened (p.placed.items ++ p.left.items)) }
{
    let mut subs = p.placed;
    let mut left = p.left;
    'left: while let Some(sub) = left.pop_front() {
        subs.push(sub)?;
    }
    Ok(Subs::from_vec(subs))
}
