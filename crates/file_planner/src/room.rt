//! Whether changes have room.
ghost use Rattle.std.specs.Prelude.{◌≡◌, ◌≤◌, ◌^◌, ℕ, List, min, IfErr};
ghost use Rattle.node_port.specs.Pins.{no_pins};
ghost use Rattle.node_port.specs.Stops.{RoomDecides, size, subs_size};
ghost use Rattle.file_planner.specs.Stopping.{IsRoomStop, one_node};

use node_port::{NodeRec, PrepareStop};
use pst_base::{Nid, Subs};

/// The most for which room is asked.
const MOST: u64 = 0x1000_0000_0000_0000;

/// How many subnodes there are at all levels, and data blocks in them, up to `MOST`.
fn count_subs(subs: &Subs) -> u64
    ensures { result ≡ min (subs_size subs.now) (2 ^ 60) }
{
    let items = subs.as_slice();
    let mut n = 0;
    for sub in items {
        let blocks = (sub.blocks.len() as u64).min(MOST);
        let below = count_subs(&sub.subs);
        n = (n + 1 + blocks + below).min(MOST);
    }
    n
}

/// How many data blocks and subnodes a node that is put has, and itself, up to `MOST`.
fn count_node(node: &Option<NodeRec>) -> u64
    ensures { result ≡ min (one_node node.now) (2 ^ 60) }
{
    let Some(node) = node else {
        return 0;
    };
    let blocks = (node.blocks.len() as u64).min(MOST);
    let subs = count_subs(&node.subs);
    (1 + blocks + subs).min(MOST)
}

/// How many data blocks, nodes and subnodes are new, up to `MOST`.
fn count_nodes(nodes: &[(Nid, Option<NodeRec>)]) -> u64
    ensures { result ≡ min (size nodes.now) (2 ^ 60) }
{
    let mut n = 0;
    for change in nodes {
        n = (n + count_node(&change.1)).min(MOST);
    }
    n
}

/// Decides whether changes may be planned, where so many cells are free and both trees have so many pages, and a next number may be used up.
pub(crate) fn decide(
    free: u64,
    pages: u64,
    spent: bool,
    room: u64,
    nodes: &[(Nid, Option<NodeRec>)],
) -> Result<(), PrepareStop>
    requires { room ≤ 2 ^ 60 }
    ensures decides { (found : List ℕ) → RoomDecides (record { free = free; pages = pages; spent = spent; found = found; pins = no_pins }) room nodes.now result }
    ensures stops { IfErr result IsRoomStop }
{
    if spent {
        return Err(PrepareStop::IdsSpent);
    }
    let need = pages / 16 + 3 * room.max(count_nodes(nodes)) + 16;
    if free < need {
        return Err(PrepareStop::Full { free, need });
    }
    Ok(())
}
