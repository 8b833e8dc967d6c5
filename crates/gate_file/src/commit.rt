//! The four steps of the gate as one call.
ghost use Rattle.std.specs.Prelude.{◌≡◌, ◌≤◌, ◌+◌, length, OnOk, OnErr};
ghost use Rattle.pst_outside.specs.Calls.{Rose, NeverFall, LeavesOnly, Settled};
ghost use Rattle.gate_file.specs.Gate.{IsClosed, IsCommitted, UnderEither};

use crate::gate::{arm, disarm, fire, settle};
use pst_outside::{Failed, Outside};

/// Puts a header in the place of the one that counts. The bytes that it refers to stand in Main and were synced. It makes four writes, each with a sync, and takes no memory.
///
/// `Failed` comes where the disk failed: then the old header counts or the new one.
pub fn commit_header<W: Outside>(w: &mut W, h: &[u8; 564]) -> Result<(), Failed>
    ensures counts { NeverFall (W.view w.old) (W.view w.new) }
    ensures cause { OnErr result (Rose (W.view w.old).disk_faults (W.view w.new).disk_faults) }
    ensures told { (W.view w.new).tells → (W.view w.old).tells }
    ensures input { (W.view w.new).tells → (W.view w.new).input ≡ (W.view w.old).input }
    // What is written is the header twice, the 15 zeros before it, and the gate's byte twice.
    ensures written { (W.view w.new).written ≤ (W.view w.old).written + 1145 }
    ensures settled { Settled (W.view w.old) → OnOk result (Settled (W.view w.new)) }
    ensures committed { ((W.view w.old).tells → IsClosed (W.view w.old).here.side) → OnOk result ((W.view w.new).tells → IsCommitted h.now (W.view w.old).here (W.view w.new).here) }
    // A crash at any moment leaves the old file, or that under the new header.
    ensures any_moment { Settled (W.view w.old) → ((W.view w.old).tells → IsClosed (W.view w.old).here.side) → ((W.view w.old).tells → 564 ≤ length (W.view w.old).here.main)
        → LeavesOnly (W.view w.old) (W.view w.new) (UnderEither h.now (W.view w.old).here) }
{
    arm(w, h)?;
    fire(w)?;
    settle(w, h)?;
    disarm(w)?;
    Ok(())
}
