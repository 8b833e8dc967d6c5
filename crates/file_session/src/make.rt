//! A new store in a file.
ghost use Rattle.std.specs.Prelude.{◌≡◌, ◌⊎◌, ℕ, true};
ghost use Rattle.pst_outside.specs.Calls.{NeverFall, Rose, Settled, Untouched};
ghost use Rattle.gate_file.specs.Gate.{IsShut};
ghost use Rattle.file_laying.specs.empty_file.Empty.{HasBytes};
ghost use Rattle.mail_searches.specs.Searching.{Searching, StartsSearching};
ghost use Rattle.file_session.specs.FileRun.{ReadsAs, front_of};
ghost use Rattle.file_session.specs.Stops.{LacksRoom, of_laying, of_plan};

use file_laying::{FoundStore, LayingStop, lay_nodes};
use mapi_values::Units;
use new_store::new_store;
use node_port::{Changes, PrepareStop};
use pst_outside::Outside;
use std::alloc::Global;

/// How the making of a store in a file went.
#[derive(Clone, Copy, Debug, PartialEq, Eq)]
pub enum FileMade {
    /// The store is there.
    Made,
    /// One of the two files has bytes already.
    NotEmpty,
    /// The disk failed.
    Disk,
    /// What stands at the offset `ib` isn't as it was written: the two numbers that the check compared.
    Changed { ib: u64, stored: u64, computed: u64 },
    /// There was no memory.
    Memory,
    /// A file without nodes is there, with fewer free cells than the store's nodes need.
    Full { free: u64, need: u64 },
    /// A file without nodes is there, and the number of its next block or page is 2^61 or above.
    IdsSpent,
}

/// The end for a plan that isn't made.
fn of_plan(stop: PrepareStop) -> FileMade
    ensures { result ≡ of_plan stop }
{
    match stop {
        PrepareStop::Fault => FileMade::Disk,
        PrepareStop::Changed {
            ib,
            stored,
            computed,
        } => FileMade::Changed {
            ib,
            stored,
            computed,
        },
        PrepareStop::Memory => FileMade::Memory,
        PrepareStop::Full { free, need } => FileMade::Full { free, need },
        PrepareStop::IdsSpent => FileMade::IdsSpent,
    }
}

/// The end where no file with the nodes of a new store was laid.
fn of_laying(stop: LayingStop) -> FileMade
    ensures { result ≡ of_laying stop }
{
    match stop {
        LayingStop::NotEmpty => FileMade::NotEmpty,
        LayingStop::Fault => FileMade::Disk,
        LayingStop::Memory => FileMade::Memory,
        LayingStop::Unplanned(stop) => of_plan(stop),
    }
}

/// Makes a new store of a name in the two files, which are empty before, by laying a file with the store's nodes. What a stop or a failure within it leaves can be a file without nodes, which is no store; the next call then answers `NotEmpty`.
pub fn make_file<W: Outside, S: FoundStore<W> + Drop>(
    alloc: Global,
    w: &mut W,
    name: &Units,
) -> FileMade
    ensures made { result ≡ FileMade.Made → (W.view w.new).tells → (X : Searching) × StartsSearching name.now X × ReadsAs true (front_of (W.view w.new).here) (W.view w.new).here X }
    // Nothing is pending then, and the gate is shut.
    ensures rests { Settled (W.view w.old) → result ≡ FileMade.Made → Settled (W.view w.new) × ((W.view w.new).tells → IsShut (W.view w.new).here.side) }
    ensures said { Settled (W.view w.old) → (W.view w.new).tells → (W.view w.new).here.said ≡ (W.view w.old).here.said }
    ensures not_empty { result ≡ FileMade.NotEmpty → Untouched (W.view w.old) (W.view w.new) × ((W.view w.new).tells → HasBytes (W.view w.new).here) }
    // Files that have bytes stay as they are.
    ensures kept { (W.view w.old).tells → HasBytes (W.view w.old).here → Untouched (W.view w.old) (W.view w.new) × ((result ≡ FileMade.NotEmpty) ⊎ (result ≡ FileMade.Disk) ⊎ (result ≡ FileMade.Memory)) }
    ensures fault { result ≡ FileMade.Disk → Rose (W.view w.old).disk_faults (W.view w.new).disk_faults }
    ensures not_changed { (ib stored computed : ℕ) → result ≡ FileMade.Changed ib stored computed → (W.view w.new).tells → ⊥ }
    ensures lacks { (W.view w.new).tells → LacksRoom (W.view w.new).here result }
    ensures told { (W.view w.new).tells → (W.view w.old).tells }
    ensures input { (W.view w.new).tells → (W.view w.new).input ≡ (W.view w.old).input }
    ensures counts { NeverFall (W.view w.old) (W.view w.new) }
{
    let Ok(store) = new_store(alloc, name) else {
        return FileMade::Memory;
    };
    let changes = Changes {
        nodes: store.nodes,
        counts: store.counts,
        room: 0,
    };
    match lay_nodes::<W, S>(alloc, w, changes) {
        Ok(_keeper) => FileMade::Made,
        Err(stop) => of_laying(stop),
    }
}
