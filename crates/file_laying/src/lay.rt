//! A file with nodes, laid.
ghost use Rattle.std.specs.Prelude.{◌≡◌, ◌≤◌, ◌^◌, ◌⊎◌, [], Err, IfOk, IfErr, OnOk, IsTrue};
ghost use Rattle.pst_outside.specs.Calls.{NeverFall, Rose, Settled, Untouched};
ghost use Rattle.gate_file.specs.Gate.{IsShut};
ghost use Rattle.file_blocks.specs.Blocks.{file_of};
ghost use Rattle.node_port.specs.Nodes.{ascend, changed, no_nodes};
ghost use Rattle.node_port.specs.Pins.{no_pins};
ghost use Rattle.pst_commit.specs.Keeping.{Holds, pins_of};
ghost use Rattle.empty_file.specs.Empty.{HasBytes, IsFirst, IsVacant};
ghost use Rattle.empty_file.specs.Known.{IsFoundEmpty};
ghost use Rattle.file_laying.specs.Laying.{IsLaidOver, StopsPlan};

use crate::store::FoundStore;
use empty_file::{LayStop, lay_empty};
use file_scan::FoundFile;
use node_port::{Changes, Keeper, PrepareStop};
use pst_commit::FileKeeper;
use pst_header::write;
use pst_outside::{Failed, Outside};
use std::alloc::Global;

/// Why no file with nodes was laid.
#[derive(Clone, Copy, Debug, PartialEq, Eq)]
pub enum LayingStop {
    /// The file or the gate beside it has bytes already.
    NotEmpty,
    /// The disk failed.
    Fault,
    /// There is too little memory.
    Memory,
    /// A file without nodes is there, and the nodes couldn't be planned.
    Unplanned(PrepareStop),
}

impl From<LayStop> for LayingStop {
    ghost use Rattle.std.specs.Prelude.{◌≡◌};
    ghost use Rattle.file_laying.specs.Laying.{of_lay};

    ghost from_gives = { λ stop made. made ≡ of_lay stop };

    fn from(stop: LayStop) -> LayingStop {
        match stop {
            LayStop::NotEmpty => LayingStop::NotEmpty,
            LayStop::Fault => LayingStop::Fault,
            LayStop::Memory => LayingStop::Memory,
        }
    }
}

/// Commits the first nodes to a file without nodes.
fn put_nodes<W: Outside, S: FoundStore<W> + Drop>(
    alloc: Global,
    w: &mut W,
    found: FoundFile,
    changes: Changes,
) -> Result<FileKeeper<S>, LayingStop>
    requires first { IsFirst found.header }
    requires order { IsTrue (ascend 0 changes.nodes.items) }
    requires room { changes.room ≤ 2 ^ 60 }
    requires laid { (W.view w.old).tells → IsFoundEmpty (W.view w.old).here found }
    requires shut { (W.view w.old).tells → IsShut (W.view w.old).here.side }
    ensures laid { IfOk result (λ k. (W.view w.new).tells → Holds (S.knows k.store) k.found k.header (W.view w.new) (changed no_nodes changes.nodes.items)) }
    ensures last { IfOk result (λ k. k.header.indexes ≡ changes.counts.last) }
    ensures no_pins { IfOk result (λ k. pins_of k.given (S.held k.store) ≡ no_pins) }
    ensures made { OnOk result ((W.view w.new).tells → S.becomes [] (file_of (W.view w.old).here) (file_of (W.view w.new).here)) }
    ensures rests { Settled (W.view w.old) → OnOk result (Settled (W.view w.new) × ((W.view w.new).tells → IsShut (W.view w.new).here.side)) }
    ensures said { Settled (W.view w.old) → (W.view w.new).tells → (W.view w.new).here.said ≡ (W.view w.old).here.said }
    ensures plan { IfErr result (λ stop. (W.view w.new).tells → StopsPlan (W.view w.new).here changes.room changes.nodes.items stop) }
    ensures some { result ≡ Err LayingStop.NotEmpty → ⊥ }
    ensures fault { result ≡ Err LayingStop.Fault → Rose (W.view w.old).disk_faults (W.view w.new).disk_faults }
    ensures plan_fault { result ≡ Err (LayingStop.Unplanned PrepareStop.Fault) → Rose (W.view w.old).disk_faults (W.view w.new).disk_faults }
    ensures told { (W.view w.new).tells → (W.view w.old).tells }
    ensures input { (W.view w.new).tells → (W.view w.new).input ≡ (W.view w.old).input }
    ensures counts { NeverFall (W.view w.old) (W.view w.new) }
{
    let header = found.header;
    let Ok(planner) = S::from_found(alloc, found) else {
        return Err(LayingStop::Memory);
    };
    let mut keeper = FileKeeper {
        store: planner,
        header,
        found: write(&header),
        given: 0,
    };
    match keeper.prepare(alloc, w, changes) {
        Ok(ready) => match keeper.apply(w, ready) {
            Ok(()) => Ok(keeper),
            Err(Failed) => Err(LayingStop::Fault),
        },
        Err(stop) => Err(LayingStop::Unplanned(stop)),
    }
}

/// Lays a file with these nodes and counters in Main, which is empty as Side is, and gives its keeper: first a file without nodes, and then the nodes by one commit. The nodes ascend strictly by id; `None` for a node changes nothing. The file ends with the least region that has room for all.
///
/// `NotEmpty` comes where one of the two has bytes, and nothing is written then; `Fault` where the disk failed; `Memory` where there was no memory, which may be behind the file without nodes too. `Unplanned` comes behind that file: of it, `Full` and `IdsSpent` just where that file has too little room or numbers, and `Changed` never over a world that tells.
pub fn lay_nodes<W: Outside, S: FoundStore<W> + Drop>(
    alloc: Global,
    w: &mut W,
    changes: Changes,
) -> Result<FileKeeper<S>, LayingStop>
    requires order { IsTrue (ascend 0 changes.nodes.items) }
    requires room { changes.room ≤ 2 ^ 60 }
    ensures laid { IfOk result (λ k. (W.view w.new).tells → Holds (S.knows k.store) k.found k.header (W.view w.new) (changed no_nodes changes.nodes.items)) }
    ensures last { IfOk result (λ k. k.header.indexes ≡ changes.counts.last) }
    ensures no_pins { IfOk result (λ k. pins_of k.given (S.held k.store) ≡ no_pins) }
    ensures made { OnOk result ((W.view w.new).tells → IsLaidOver (S.becomes []) (W.view w.new).here) }
    ensures rests { Settled (W.view w.old) → OnOk result (Settled (W.view w.new) × ((W.view w.new).tells → IsShut (W.view w.new).here.side)) }
    ensures said { Settled (W.view w.old) → (W.view w.new).tells → (W.view w.new).here.said ≡ (W.view w.old).here.said }
    ensures empty { OnOk result ((W.view w.old).tells → IsVacant (W.view w.old).here) }
    ensures plan { IfErr result (λ stop. (W.view w.new).tells → StopsPlan (W.view w.new).here changes.room changes.nodes.items stop) }
    ensures not_empty { result ≡ Err LayingStop.NotEmpty → Untouched (W.view w.old) (W.view w.new) × ((W.view w.new).tells → HasBytes (W.view w.new).here) }
    // Files that have bytes stay as they are.
    ensures kept { (W.view w.old).tells → HasBytes (W.view w.old).here → Untouched (W.view w.old) (W.view w.new) × ((result ≡ Err LayingStop.NotEmpty) ⊎ (result ≡ Err LayingStop.Fault)) }
    ensures fault { result ≡ Err LayingStop.Fault → Rose (W.view w.old).disk_faults (W.view w.new).disk_faults }
    ensures plan_fault { result ≡ Err (LayingStop.Unplanned PrepareStop.Fault) → Rose (W.view w.old).disk_faults (W.view w.new).disk_faults }
    ensures told { (W.view w.new).tells → (W.view w.old).tells }
    ensures input { (W.view w.new).tells → (W.view w.new).input ≡ (W.view w.old).input }
    ensures counts { NeverFall (W.view w.old) (W.view w.new) }
{
    let found = lay_empty(alloc, w)?;
    put_nodes::<W, S>(alloc, w, found, changes)
}
