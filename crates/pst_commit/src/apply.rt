//! A commit of pieces and a header.
ghost use Rattle.std.specs.Prelude.{◌≡◌, ◌≤◌, ◌+◌, List, ℕ, OnOk, OnErr};
ghost use Rattle.pst_outside.specs.Calls.{Rose, NeverFall, Settled};
ghost use Rattle.gate_file.specs.Gate.{IsShut};
ghost use Rattle.node_port.specs.Nodes.{Nodes};
ghost use Rattle.lays_kept.specs.Kept.{HoldsEach, Scattered};
ghost use Rattle.lays_kept.specs.Stands.{Commits};
ghost use Rattle.pst_commit.specs.Commit.{IsApplied, LeavesEither, bytes_in};

use crate::writes::write_pieces;
use gate_file::commit_header;
use lays_kept::Piece;
use pst_outside::{Failed, Outside};

/// Writes pieces, and then puts a header in the place of the one that counts. It makes five syncs, and takes no memory. `Failed` comes where the disk failed: then the old header counts or the new one.
pub fn apply_pieces<W: Outside>(
    w: &mut W,
    pieces: &[Piece],
    header: &[u8; 564],
) -> Result<(), Failed>
    ensures counts { NeverFall (W.view w.old) (W.view w.new) }
    ensures cause { OnErr result (Rose (W.view w.old).disk_faults (W.view w.new).disk_faults) }
    ensures told { (W.view w.new).tells → (W.view w.old).tells }
    ensures input { (W.view w.new).tells → (W.view w.new).input ≡ (W.view w.old).input }
    ensures written { (W.view w.new).written ≤ (W.view w.old).written + (bytes_in pieces.now + 1145) }
    ensures settled { Settled (W.view w.old) → OnOk result (Settled (W.view w.new)) }
    ensures applied { ((W.view w.old).tells → IsShut (W.view w.old).here.side) → OnOk result ((W.view w.new).tells
        → IsApplied (λ mid. Scattered pieces.now (W.view w.old).here.main mid × HoldsEach mid pieces.now) header.now (W.view w.old).here (W.view w.new).here) }
    // A crash at any moment leaves the nodes from before or those after.
    ensures any_moment { Settled (W.view w.old) → ((W.view w.old).tells → IsShut (W.view w.old).here.side) → (found : List ℕ) (N : Nodes) (last : List ℕ) (M : Nodes) (next : List ℕ)
        → ((W.view w.old).tells → Commits found (Scattered pieces.now (W.view w.old).here.main) (λ mid. HoldsEach mid pieces.now) header.now N last M next)
        → LeavesEither (W.view w.old) (W.view w.new) found N last M next }
{
    write_pieces(w, pieces)?;
    commit_header(w, header)?;
    Ok(())
}
