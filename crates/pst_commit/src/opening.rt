//! The end of an opening: the gate that a stop has left is closed.
ghost use Rattle.std.specs.Prelude.{◌≡◌, ◌≤◌, ◌+◌, List, ℕ, length, OnOk, OnErr};
ghost use Rattle.pst_outside.specs.Calls.{Rose, NeverFall, Settled, Untouched};
ghost use Rattle.gate_file.specs.Gate.{IsShut, SameStore};
ghost use Rattle.node_port.specs.Nodes.{Nodes};
ghost use Rattle.lays_kept.specs.Stands.{Stands};
ghost use Rattle.pst_commit.specs.Commit.{LeavesNodes};

use gate_file::recover_gate;
use pst_outside::{Failed, Outside};

/// Closes the gate that a stop has left. `side_len` is the length of Side in bytes. A crash at any moment leaves the same nodes. Where the gate is shut by a 0, nothing is written. `Failed` comes where the disk failed.
pub fn close_gate<W: Outside>(w: &mut W, side_len: u64) -> Result<(), Failed>
    requires side { (W.view w.old).tells → length (W.view w.old).here.side ≡ side_len }
    requires size { side_len ≤ 580 }
    requires long { (W.view w.old).tells → 564 ≤ length (W.view w.old).here.main }
    ensures counts { NeverFall (W.view w.old) (W.view w.new) }
    ensures cause { OnErr result (Rose (W.view w.old).disk_faults (W.view w.new).disk_faults) }
    ensures told { (W.view w.new).tells → (W.view w.old).tells }
    ensures input { (W.view w.new).tells → (W.view w.new).input ≡ (W.view w.old).input }
    ensures shut { OnOk result ((W.view w.new).tells → IsShut (W.view w.new).here.side) }
    ensures store { (W.view w.new).tells → SameStore (W.view w.old).here (W.view w.new).here }
    ensures settled { Settled (W.view w.old) → OnOk result (Settled (W.view w.new)) }
    ensures idle { (W.view w.new).tells → IsShut (W.view w.old).here.side → Untouched (W.view w.old) (W.view w.new) }
    ensures written { (W.view w.new).written ≤ (W.view w.old).written + 580 }
    ensures any_moment { Settled (W.view w.old) → (found : List ℕ) (N : Nodes) (last : List ℕ) → ((W.view w.old).tells → Stands found (W.view w.old).here N last)
        → LeavesNodes (W.view w.old) (W.view w.new) found N last }
{
    recover_gate(w, side_len)?;
    Ok(())
}
