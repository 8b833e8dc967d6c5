//! What room a keeper has.
ghost use Rattle.std.specs.Prelude.{◌≡◌, IfErr, IfOk};
ghost use Rattle.pst_outside.specs.Calls.{Untouched};
ghost use Rattle.node_port.specs.Nodes.{Nodes};
ghost use Rattle.node_port.specs.Stops.{KeepsPins, KeepStops, Tells};
ghost use Rattle.staged_nodes.specs.Room.{IsLeft};

use node_port::{Changes, KeepStop, Keeper, PrepareStop};
use pst_outside::Outside;
use std::alloc::Global;

/// What is known of a keeper's room.
#[derive(Clone, Copy, Debug, PartialEq, Eq)]
pub enum CellsLeft {
    /// A next number for blocks or pages is used up.
    Spent,
    /// So many cells are free, and so many are kept for its pages.
    Cells { free: u64, kept: u64 },
    /// There are more than 2^60 blocks need.
    Ample,
}

/// The most blocks for which room is asked.
const MOST: u64 = 0x1000_0000_0000_0000;

/// What room a keeper has. It is asked for more than any file has, so that it tells how much there is, and nothing changes.
pub fn cells_left<W: Outside, K: Keeper<W>>(
    alloc: Global,
    keeper: &mut K,
    w: &mut W,
) -> Result<CellsLeft, KeepStop>
    ensures left { IfOk result (λ left. Tells (K.holds keeper.old (W.view w.old)) (λ N. IsLeft (K.room keeper.old) left)) }
    ensures stops { IfErr result (KeepStops K.has_disk (W.view w.old).disk_faults (W.view w.new).disk_faults (K.holds keeper.old (W.view w.old))) }
    ensures stays { Tells (K.holds keeper.old (W.view w.old)) (K.holds keeper.new (W.view w.new)) }
    ensures pinned { KeepsPins (K.holds keeper.old (W.view w.old)) (K.pinned keeper.old (W.view w.old)) (K.pinned keeper.new (W.view w.new)) }
    ensures last { K.last keeper.new ≡ K.last keeper.old }
    ensures room { K.room keeper.new ≡ K.room keeper.old }
    ensures untouched { Untouched (W.view w.old) (W.view w.new) }
{
    let changes = Changes {
        nodes: Vec::new(alloc),
        counts: keeper.counts(),
        room: MOST,
    };
    match keeper.prepare(alloc, w, changes) {
        Ok(_given_up) => Ok(CellsLeft::Ample),
        Err(PrepareStop::Full { free, need }) => {
            // (a need below that isn't one that a keeper tells)
            match need.checked_sub(3 * MOST + 16) {
                Some(kept) if kept < MOST => Ok(CellsLeft::Cells { free, kept }),
                _ => Err(KeepStop::Memory),
            }
        }
        Err(PrepareStop::IdsSpent) => Ok(CellsLeft::Spent),
        Err(PrepareStop::Fault) => Err(KeepStop::Fault),
        Err(
            PrepareStop::Changed {
                ib,
                stored,
                computed,
            },
        ) => Err(KeepStop::Changed {
            ib,
            stored,
            computed,
        }),
        Err(PrepareStop::Memory) => Err(KeepStop::Memory),
    }
}
