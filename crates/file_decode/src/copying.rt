//! Main's bytes, copied.
ghost use Rattle.std.specs.Prelude.{◌≡◌, ◌≤◌, ◌+◌, ◌++◌, [], length, take, drop, OnOk, OnErr};
ghost use Rattle.pst_outside.specs.Calls.{Rose};
ghost use Rattle.pst_outside.specs.World.{after_write};
ghost use Rattle.file_decode.specs.Decoding.{no_header};
ghost use Rattle.copy_part.specs.Keeps.{KeepsSource};

use copy_part::put;
use pst_outside::{Failed, Outside, Part, read_part};

/// How many bytes a header has.
const HEADER: u64 = 564;

/// How many bytes are copied at a time.
const PIECE: usize = 65_536;

/// Copies bytes of Main to the same place of Copy, as many as the buffer holds.
fn copy_piece<W: Outside>(w: &mut W, at: u64, piece: &mut [u8]) -> Result<(), Failed>
    requires { (W.view w.old).tells → at + length piece.old ≤ length (W.view w.old).here.main }
    ensures keeps { KeepsSource (W.view w.old) (W.view w.new) }
    ensures cause { OnErr result (Rose (W.view w.old).disk_faults (W.view w.new).disk_faults) }
    ensures copy { OnOk result ((W.view w.new).tells → (W.view w.new).here.copy ≡ after_write (W.view w.old).here.copy at (take (length piece.old) (drop at (W.view w.old).here.main))) }
{
    read_part(w, Part::Main, at, piece)?;
    put(w, at, piece)
}

/// Copies all bytes of Main behind the header; zeros stand in the header's place. Copy has no bytes before.
pub(crate) fn copy_bytes<W: Outside>(w: &mut W) -> Result<(), Failed>
    requires empty { (W.view w.old).tells → (W.view w.old).here.copy ≡ [] }
    ensures keeps { KeepsSource (W.view w.old) (W.view w.new) }
    ensures cause { OnErr result (Rose (W.view w.old).disk_faults (W.view w.new).disk_faults) }
    ensures copy { OnOk result ((W.view w.new).tells → (W.view w.new).here.copy ≡ no_header ++ drop 564 (W.view w.old).here.main) }
{
    let len = w.len(Part::Main)?;
    put(w, 0, &[0; 564])?;
    let mut buffer = [0; PIECE];
    let mut at = HEADER;
    while at < len {
        let n = (len - at).min(PIECE as u64) as usize;
        copy_piece(w, at, &mut buffer[..n])?;
        at += n as u64;
    }
    Ok(())
}
