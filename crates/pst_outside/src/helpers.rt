//! What callers of every world need: to say a whole text, and to fill a whole buffer.
ghost use Rattle.std.specs.Prelude.{◌≡◌, ◌≤◌, ◌+◌, ◌++◌, ℕ, length, take, drop, OnOk, OnErr};
ghost use Rattle.pst_outside.specs.World.{SameDisk, content};
ghost use Rattle.pst_outside.specs.Calls.{Rose, NeverFall, StaysButSaid, Follows, LeavesOnly, Settled, Untouched, SaysSome, filled};

use crate::{Failed, Outside, Part};

/// Says the whole text, in as many calls as it takes. After an `Err` a first part of it was said.
pub fn say_all<W: Outside>(w: &mut W, text: &[u8]) -> Result<(), Failed>
    ensures counts { NeverFall (W.view w.old) (W.view w.new) }
    ensures cause { OnErr result (Rose (W.view w.old).out_faults (W.view w.new).out_faults) }
    ensures content { StaysButSaid (W.view w.old) (W.view w.new) }
    ensures said { OnOk result ((W.view w.new).tells → (W.view w.new).here.said ≡ (W.view w.old).here.said ++ text.now) }
    ensures said_err { OnErr result ((W.view w.new).tells → (k : ℕ) × (k ≤ length text.now) × ((W.view w.new).here.said ≡ (W.view w.old).here.said ++ take k text.now)) }
    ensures crash { Follows SameDisk (W.view w.old) (W.view w.new) }
    ensures settled { Settled (W.view w.old) → Settled (W.view w.new) }
    ensures any_moment { LeavesOnly (W.view w.old) (W.view w.new) (SaysSome (W.view w.old) text.now) }
{
    let mut done = 0;
    while done < text.len() {
        done += w.say(&text[done..])?;
    }
    Ok(())
}

/// Fills the whole buffer from a place of a part, by one read: with zeros from the part's end on.
pub fn read_part<W: Outside>(w: &mut W, part: Part, at: u64, buf: &mut [u8]) -> Result<(), Failed>
    ensures cause { OnErr result (Rose (W.view w.old).disk_faults (W.view w.new).disk_faults) }
    ensures same { Untouched (W.view w.old) (W.view w.new) }
    ensures read { OnOk result ((W.view w.new).tells → buf.new ≡ filled (length buf.old) (drop at (content part (W.view w.new).here))) }
    ensures whole { OnOk result ((W.view w.new).tells → at + length buf.old ≤ length (content part (W.view w.new).here) → buf.new ≡ take (length buf.old) (drop at (content part (W.view w.new).here))) }
{
    let n = w.read_at(part, at, buf)?;
    buf[n..].fill(0);
    Ok(())
}
