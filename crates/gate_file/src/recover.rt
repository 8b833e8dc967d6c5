//! What ends a commit that a stop has cut short.
ghost use Rattle.std.specs.Prelude.{◌≡◌, ◌≤◌, ◌<◌, ◌+◌, length, take, drop, slice_index, IfOk, OnOk, OnErr};
ghost use Rattle.pst_outside.specs.World.{content};
ghost use Rattle.pst_outside.specs.Calls.{Rose, NeverFall, LeavesOnly, Settled, Untouched};
ghost use Rattle.gate_file.specs.Gate.{IsClosed, IsShut, HasOpenGate, SameStore, KeepsStore};

use crate::gate::{HEADER_LEN, SIDE_LEN, arm, disarm, settle};
use pst_outside::{Failed, Outside, Part, read_part};

/// Closes the gate that a stop has left, with the same store at every moment. `side_len` is the length of Side in bytes.
///
/// Where the gate is open, the header in Side is written into Main first. Where Side is short or its first byte is neither 0 nor 1, Main's header is put behind the gate, so that no torn byte can bring back an old one. Where the gate is shut by a 0, nothing is written.
pub fn recover_gate<W: Outside>(w: &mut W, side_len: u64) -> Result<(), Failed>
    requires side { (W.view w.old).tells → length (W.view w.old).here.side ≡ side_len }
    requires size { side_len ≤ 580 }
    requires long { (W.view w.old).tells → 564 ≤ length (W.view w.old).here.main }
    ensures counts { NeverFall (W.view w.old) (W.view w.new) }
    ensures cause { OnErr result (Rose (W.view w.old).disk_faults (W.view w.new).disk_faults) }
    ensures told { (W.view w.new).tells → (W.view w.old).tells }
    ensures input { (W.view w.new).tells → (W.view w.new).input ≡ (W.view w.old).input }
    ensures shut { OnOk result ((W.view w.new).tells → IsShut (W.view w.new).here.side) }
    ensures store { (W.view w.new).tells → SameStore (W.view w.old).here (W.view w.new).here }
    ensures settled { Settled (W.view w.old) → OnOk result (Settled (W.view w.new)) }
    ensures any_moment { Settled (W.view w.old) → LeavesOnly (W.view w.old) (W.view w.new) (SameStore (W.view w.old).here) }
    // A gate that is shut already costs no write.
    ensures idle { (W.view w.new).tells → IsShut (W.view w.old).here.side → Untouched (W.view w.old) (W.view w.new) }
    // What is written is a header, the 15 zeros before it, and the gate's byte.
    ensures written { (W.view w.new).written ≤ (W.view w.old).written + 580 }
{
    if side_len < SIDE_LEN {
        return lay_gate(w);
    }
    match read_gate(w)? {
        0 => Ok(()),
        1 => finish(w),
        _ => close_anew(w),
    }
}

/// Lays a shut gate with Main's header behind it, where Side is short.
fn lay_gate<W: Outside>(w: &mut W) -> Result<(), Failed>
    requires short { (W.view w.old).tells → length (W.view w.old).here.side < 580 }
    requires long { (W.view w.old).tells → 564 ≤ length (W.view w.old).here.main }
    ensures keeps { KeepsStore (W.view w.old) (W.view w.new) }
    ensures cause { OnErr result (Rose (W.view w.old).disk_faults (W.view w.new).disk_faults) }
    ensures shut { OnOk result ((W.view w.new).tells → IsShut (W.view w.new).here.side) }
    ensures settled { Settled (W.view w.old) → OnOk result (Settled (W.view w.new)) }
    ensures written { (W.view w.new).written ≤ (W.view w.old).written + 580 }
{
    let h = read_header(w, Part::Main, 0)?;
    disarm(w)?;
    arm(w, &h)?;
    Ok(())
}

/// Writes the header behind the open gate into Main, and closes the gate.
fn finish<W: Outside>(w: &mut W) -> Result<(), Failed>
    requires gate { (W.view w.old).tells → HasOpenGate (W.view w.old).here.side }
    requires long { (W.view w.old).tells → 564 ≤ length (W.view w.old).here.main }
    ensures keeps { KeepsStore (W.view w.old) (W.view w.new) }
    ensures cause { OnErr result (Rose (W.view w.old).disk_faults (W.view w.new).disk_faults) }
    ensures shut { OnOk result ((W.view w.new).tells → IsShut (W.view w.new).here.side) }
    ensures settled { Settled (W.view w.old) → OnOk result (Settled (W.view w.new)) }
    ensures written { (W.view w.new).written ≤ (W.view w.old).written + 580 }
{
    let h = read_header(w, Part::Side, 16)?;
    settle(w, &h)?;
    disarm(w)?;
    Ok(())
}

/// Puts Main's header behind the closed gate, and shuts the gate by a whole byte.
fn close_anew<W: Outside>(w: &mut W) -> Result<(), Failed>
    requires closed { (W.view w.old).tells → IsClosed (W.view w.old).here.side }
    requires long { (W.view w.old).tells → 564 ≤ length (W.view w.old).here.main }
    ensures keeps { KeepsStore (W.view w.old) (W.view w.new) }
    ensures cause { OnErr result (Rose (W.view w.old).disk_faults (W.view w.new).disk_faults) }
    ensures shut { OnOk result ((W.view w.new).tells → IsShut (W.view w.new).here.side) }
    ensures settled { Settled (W.view w.old) → OnOk result (Settled (W.view w.new)) }
    ensures written { (W.view w.new).written ≤ (W.view w.old).written + 580 }
{
    let h = read_header(w, Part::Main, 0)?;
    arm(w, &h)?;
    disarm(w)?;
    Ok(())
}

fn read_header<W: Outside>(w: &mut W, part: Part, at: u64) -> Result<[u8; 564], Failed>
    ensures cause { OnErr result (Rose (W.view w.old).disk_faults (W.view w.new).disk_faults) }
    ensures same { Untouched (W.view w.old) (W.view w.new) }
    ensures header { IfOk result (λ h. (W.view w.new).tells → at + 564 ≤ length (content part (W.view w.new).here) → h ≡ take 564 (drop at (content part (W.view w.new).here))) }
{
    let mut h = [0; HEADER_LEN];
    read_part(w, part, at, &mut h)?;
    Ok(h)
}

/// The gate's byte.
fn read_gate<W: Outside>(w: &mut W) -> Result<u8, Failed>
    ensures cause { OnErr result (Rose (W.view w.old).disk_faults (W.view w.new).disk_faults) }
    ensures same { Untouched (W.view w.old) (W.view w.new) }
    ensures gate { IfOk result (λ b. (W.view w.new).tells → 0 < length (W.view w.new).here.side → b ≡ slice_index (W.view w.new).here.side 0) }
{
    let mut gate = [0];
    read_part(w, Part::Side, 0, &mut gate)?;
    Ok(gate[0])
}
