//! Calls that write to the file of a copy alone.
//!
//! Promises: `put` writes bytes into Copy and `settle` makes Copy stable; at every moment of both Main and Side are as they were (`KeepsSource`), and each `Err` is the disk's. Runs of such calls have this again (`keeps_along`).
//!
//! Leaves to others: what a copy is made of, and what a stop leaves of it.
#![tactic(auto)]

ghost use Rattle.std.specs.Prelude.{◌≡◌, OnOk, OnErr};
ghost use Rattle.pst_outside.specs.Calls.{Rose};
ghost use Rattle.pst_outside.specs.World.{after_write};
ghost use Rattle.copy_part.specs.Keeps.{IsStable, KeepsSource};

use pst_outside::{Failed, Outside, Part};

/// Writes bytes into Copy at a place. `Failed` comes only where the disk failed.
pub fn put<W: Outside>(w: &mut W, at: u64, bytes: &[u8]) -> Result<(), Failed>
    ensures keeps { KeepsSource (W.view w.old) (W.view w.new) }
    ensures cause { OnErr result (Rose (W.view w.old).disk_faults (W.view w.new).disk_faults) }
    ensures copy { OnOk result ((W.view w.new).tells → (W.view w.new).here.copy ≡ after_write (W.view w.old).here.copy at bytes.now) }
{
    w.write_at(Part::Copy, at, bytes)
}

/// Makes Copy stable: after it, a crash leaves of Copy what a read gives. `Failed` comes only where the disk failed.
pub fn settle<W: Outside>(w: &mut W) -> Result<(), Failed>
    ensures keeps { KeepsSource (W.view w.old) (W.view w.new) }
    ensures cause { OnErr result (Rose (W.view w.old).disk_faults (W.view w.new).disk_faults) }
    ensures copy { (W.view w.new).tells → (W.view w.new).here.copy ≡ (W.view w.old).here.copy }
    ensures stable { OnOk result (IsStable (W.view w.new)) }
{
    w.sync(Part::Copy)
}
