//! Pieces, written into the store's file.
ghost use Rattle.std.specs.Prelude.{◌≡◌, ◌≤◌, ◌+◌, OnOk, OnErr};
ghost use Rattle.pst_outside.specs.Calls.{Rose, NeverFall, LeavesOnly, Settled};
ghost use Rattle.lays_kept.specs.Kept.{HoldsEach, Scattered};
ghost use Rattle.pst_commit.specs.Commit.{Writes, bytes_in};

use lays_kept::Piece;
use pst_outside::{Failed, Outside, Part};

/// Writes pieces into Main in their order, and makes it stable. It makes a call for each piece and one more, and takes no memory. `Failed` comes where the disk failed.
pub fn write_pieces<W: Outside>(w: &mut W, pieces: &[Piece]) -> Result<(), Failed>
    ensures counts { NeverFall (W.view w.old) (W.view w.new) }
    ensures cause { OnErr result (Rose (W.view w.old).disk_faults (W.view w.new).disk_faults) }
    ensures told { (W.view w.new).tells → (W.view w.old).tells }
    ensures input { (W.view w.new).tells → (W.view w.new).input ≡ (W.view w.old).input }
    ensures written { (W.view w.new).written ≤ (W.view w.old).written + bytes_in pieces.now }
    ensures settled { Settled (W.view w.old) → OnOk result (Settled (W.view w.new)) }
    ensures holds { OnOk result ((W.view w.new).tells → HoldsEach (W.view w.new).here.main pieces.now) }
    ensures content { (W.view w.new).tells → Writes (Scattered pieces.now (W.view w.old).here.main) (W.view w.old).here (W.view w.new).here }
    ensures any_moment { Settled (W.view w.old) → LeavesOnly (W.view w.old) (W.view w.new) (Writes (Scattered pieces.now (W.view w.old).here.main) (W.view w.old).here) }
{
    for piece in pieces {
        w.write_at(Part::Main, piece.at, piece.bytes.as_slice())?;
    }
    w.sync(Part::Main)?;
    Ok(())
}
