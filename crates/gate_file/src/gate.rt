//! The four steps that put a new header in the place of the old one.
ghost use Rattle.std.specs.Prelude.{◌≡◌, ◌≤◌, ◌++◌, ◌∷◌, length, drop, OnOk, OnErr};
ghost use Rattle.pst_outside.specs.World.{Image, content, after_write, TornAt};
ghost use Rattle.pst_outside.specs.Calls.{Rose, NeverFall, StaysButRange, LeavesOnly, Settled};
ghost use Rattle.gate_file.specs.Effective.{is_open};
ghost use Rattle.gate_file.specs.Gate.{IsClosed, IsArmed, IsOpen, SameStore, EitherStore, behind_gate};

use pst_outside::{Failed, Outside, Part};

/// A header's length in bytes ([MS-PST] 2.2.2.6).
pub const HEADER_LEN: usize = 564;

/// The length of Side: the gate's byte, 15 zeros and a header.
pub const SIDE_LEN: u64 = 580;

/// Whether the bytes of Side are an open gate, so that the header in them counts.
pub fn is_open(side: &[u8]) -> bool
    ensures { result ≡ is_open side.now }
{
    side.len() == SIDE_LEN as usize && side[0] == 1
}

/// Writes bytes at a place of a part and makes the part stable.
pub fn write_through<W: Outside>(w: &mut W, part: Part, at: u64, bytes: &[u8]) -> Result<(), Failed>
    ensures counts { NeverFall (W.view w.old) (W.view w.new) }
    ensures cause { OnErr result (Rose (W.view w.old).disk_faults (W.view w.new).disk_faults) }
    ensures content { StaysButRange part at (length bytes.now) (W.view w.old) (W.view w.new) }
    ensures after { OnOk result ((W.view w.new).tells → content part (W.view w.new).here ≡ after_write (content part (W.view w.old).here) at bytes.now) }
    ensures settled { Settled (W.view w.old) → OnOk result (Settled (W.view w.new)) }
    ensures any_moment { Settled (W.view w.old) → LeavesOnly (W.view w.old) (W.view w.new) (TornAt part at (length bytes.now) (W.view w.old).here) }
{
    w.write_at(part, at, bytes)?;
    w.sync(part)
}

/// Writes the header behind the closed gate, after 15 zeros, and makes Side stable.
pub fn arm<W: Outside>(w: &mut W, h: &[u8; 564]) -> Result<(), Failed>
    ensures counts { NeverFall (W.view w.old) (W.view w.new) }
    ensures cause { OnErr result (Rose (W.view w.old).disk_faults (W.view w.new).disk_faults) }
    ensures content { StaysButRange Part.Side 1 579 (W.view w.old) (W.view w.new) }
    ensures after { OnOk result ((W.view w.new).tells → (W.view w.new).here.side ≡ after_write (W.view w.old).here.side 1 (behind_gate h.now)) }
    ensures armed { ((W.view w.old).tells → IsClosed (W.view w.old).here.side) → OnOk result ((W.view w.new).tells → IsArmed h.now (W.view w.new).here.side) }
    ensures settled { Settled (W.view w.old) → OnOk result (Settled (W.view w.new)) }
    ensures any_moment { Settled (W.view w.old) → LeavesOnly (W.view w.old) (W.view w.new) (TornAt Part.Side 1 579 (W.view w.old).here) }
    // Byte 0 isn't 1 at any moment.
    ensures shut_at_any_moment { Settled (W.view w.old) → ((W.view w.old).tells → IsClosed (W.view w.old).here.side) → LeavesOnly (W.view w.old) (W.view w.new) (λ c. IsClosed c.side) }
    ensures same { Settled (W.view w.old) → ((W.view w.old).tells → IsClosed (W.view w.old).here.side) → LeavesOnly (W.view w.old) (W.view w.new) (SameStore (W.view w.old).here) }
    ensures store { ((W.view w.old).tells → IsClosed (W.view w.old).here.side) → (W.view w.new).tells → SameStore (W.view w.old).here (W.view w.new).here }
{
    write_through(w, Part::Side, 1, &behind(h))
}

/// What stands behind the gate's byte.
fn behind(h: &[u8; 564]) -> [u8; 579]
    ensures { result ≡ behind_gate h.now }
{
    let mut bytes = [0; 579];
    bytes[15..].copy_from_slice(h);
    bytes
}

/// Opens the gate: from then on the header in Side counts. This is the commit.
pub fn fire<W: Outside>(w: &mut W) -> Result<(), Failed>
    ensures counts { NeverFall (W.view w.old) (W.view w.new) }
    ensures cause { OnErr result (Rose (W.view w.old).disk_faults (W.view w.new).disk_faults) }
    ensures content { StaysButRange Part.Side 0 1 (W.view w.old) (W.view w.new) }
    // Byte 0 is 1 beside the whole header that stood behind it.
    ensures fired { ((W.view w.old).tells → length (W.view w.old).here.side ≡ 580) → OnOk result ((W.view w.new).tells → IsOpen (drop 16 (W.view w.old).here.side) (W.view w.new).here.side) }
    ensures open_in_images { Settled (W.view w.old) → ((W.view w.old).tells → length (W.view w.old).here.side ≡ 580) → OnOk result ((c : Image) → (W.view w.new).may_leave c → IsOpen (drop 16 (W.view w.old).here.side) c.side) }
    ensures settled { Settled (W.view w.old) → OnOk result (Settled (W.view w.new)) }
    ensures any_moment { Settled (W.view w.old) → LeavesOnly (W.view w.old) (W.view w.new) (TornAt Part.Side 0 1 (W.view w.old).here) }
    // The header counts or it doesn't.
    ensures either { Settled (W.view w.old) → ((W.view w.old).tells → length (W.view w.old).here.side ≡ 580) → LeavesOnly (W.view w.old) (W.view w.new) (EitherStore (W.view w.old).here) }
{
    write_through(w, Part::Side, 0, &[1])?;
    Ok(())
}

/// Writes the header that counts into Main, and makes Main stable.
pub fn settle<W: Outside>(w: &mut W, h: &[u8; 564]) -> Result<(), Failed>
    ensures counts { NeverFall (W.view w.old) (W.view w.new) }
    ensures cause { OnErr result (Rose (W.view w.old).disk_faults (W.view w.new).disk_faults) }
    ensures content { StaysButRange Part.Main 0 564 (W.view w.old) (W.view w.new) }
    ensures main { OnOk result ((W.view w.new).tells → (W.view w.new).here.main ≡ h.now ++ drop 564 (W.view w.old).here.main) }
    ensures settled { Settled (W.view w.old) → OnOk result (Settled (W.view w.new)) }
    ensures any_moment { Settled (W.view w.old) → LeavesOnly (W.view w.old) (W.view w.new) (TornAt Part.Main 0 564 (W.view w.old).here) }
    // The gate is open at any moment, so the header in Side counts and the store stays.
    ensures stays_open { Settled (W.view w.old) → ((W.view w.old).tells → IsOpen h.now (W.view w.old).here.side) → LeavesOnly (W.view w.old) (W.view w.new) (λ c. IsOpen h.now c.side) }
    ensures same { Settled (W.view w.old) → ((W.view w.old).tells → IsOpen h.now (W.view w.old).here.side) → ((W.view w.old).tells → 564 ≤ length (W.view w.old).here.main) → LeavesOnly (W.view w.old) (W.view w.new) (SameStore (W.view w.old).here) }
    ensures store { ((W.view w.old).tells → IsOpen h.now (W.view w.old).here.side) → ((W.view w.old).tells → 564 ≤ length (W.view w.old).here.main) → (W.view w.new).tells → SameStore (W.view w.old).here (W.view w.new).here }
{
    write_through(w, Part::Main, 0, h)
}

/// Closes the gate, and makes Side stable. Nothing but byte 0 of Side is pending meanwhile.
pub fn disarm<W: Outside>(w: &mut W) -> Result<(), Failed>
    ensures counts { NeverFall (W.view w.old) (W.view w.new) }
    ensures cause { OnErr result (Rose (W.view w.old).disk_faults (W.view w.new).disk_faults) }
    ensures content { StaysButRange Part.Side 0 1 (W.view w.old) (W.view w.new) }
    ensures closed { OnOk result ((W.view w.new).tells → (W.view w.new).here.side ≡ 0 ∷ drop 1 (W.view w.old).here.side) }
    ensures settled { Settled (W.view w.old) → OnOk result (Settled (W.view w.new)) }
    ensures any_moment { Settled (W.view w.old) → LeavesOnly (W.view w.old) (W.view w.new) (TornAt Part.Side 0 1 (W.view w.old).here) }
    // Main has the header that Side has, so the store stays whatever the gate's byte is.
    ensures same { Settled (W.view w.old) → ((W.view w.old).tells → length (W.view w.old).here.side ≡ 580) → ((W.view w.old).tells → drop 16 (W.view w.old).here.side ++ drop 564 (W.view w.old).here.main ≡ (W.view w.old).here.main) → LeavesOnly (W.view w.old) (W.view w.new) (SameStore (W.view w.old).here) }
    ensures store { ((W.view w.old).tells → length (W.view w.old).here.side ≡ 580) → ((W.view w.old).tells → drop 16 (W.view w.old).here.side ++ drop 564 (W.view w.old).here.main ≡ (W.view w.old).here.main) → (W.view w.new).tells → SameStore (W.view w.old).here (W.view w.new).here }
{
    write_through(w, Part::Side, 0, &[0])
}
