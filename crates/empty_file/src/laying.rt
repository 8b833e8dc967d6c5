//! A file without nodes, laid.
ghost use Rattle.std.specs.Prelude.{◌≡◌, ◌≢◌, ◌⊎◌, IfOk, OnOk, OnErr, Err};
ghost use Rattle.pst_outside.specs.Calls.{Rose, NeverFall, Settled, Untouched};
ghost use Rattle.gate_file.specs.Gate.{IsShut};
ghost use Rattle.empty_file.specs.Known.{IsFoundEmpty};
ghost use Rattle.empty_file.specs.Empty.{AreParts, HasBytes, HasFixedPages, IsFirst, IsVacant, LaysNothing};

use crate::found::find_none;
use crate::parts::parts;
use file_scan::FoundFile;
use lays_kept::Piece;
use pst_commit::{close_gate, write_pieces};
use pst_header::Header;
use pst_outside::{Failed, Outside, Part};
use std::alloc::{AllocError, Global};

/// Why no file was laid.
#[derive(Clone, Copy, Debug, PartialEq, Eq)]
pub enum LayStop {
    /// The file or the gate beside it has bytes already.
    NotEmpty,
    /// The disk failed.
    Fault,
    /// There is too little memory.
    Memory,
}

impl From<Failed> for LayStop {
    ghost use Rattle.std.specs.Prelude.{◌≡◌};
    ghost use Rattle.empty_file.specs.declared.laying.LayStop.TheVariants.{Fault};

    ghost from_gives = { λ _ e. e ≡ Fault };

    fn from(_failed: Failed) -> LayStop {
        LayStop::Fault
    }
}

impl From<AllocError> for LayStop {
    ghost use Rattle.std.specs.Prelude.{◌≡◌};
    ghost use Rattle.empty_file.specs.declared.laying.LayStop.TheVariants.{Memory};

    ghost from_gives = { λ _ e. e ≡ Memory };

    fn from(_err: AllocError) -> LayStop {
        LayStop::Memory
    }
}

/// Lays a file without nodes in Main, and shuts the gate in Side ([MS-PST] 2.2.2). Both are empty before. What a stop within it leaves is no file yet.
///
/// The file has one region, and so 271,360 bytes: the header; at 4200h the page that older readers look for, at 4400h and 4600h the region's map pages, at 4C00h and 4E00h the roots of the block tree and of the node tree, without entries; and a zero as its last byte. The header vouches for no maps.
///
/// Where one of the two has bytes, nothing is written and the answer is `NotEmpty`, or `Fault` where the disk failed before that was known. `Memory` comes before anything is written. `Fault` comes only where the disk failed.
pub fn lay_empty<W: Outside>(alloc: Global, w: &mut W) -> Result<FoundFile, LayStop>
    ensures laid { IfOk result (λ found. (W.view w.new).tells → IsFoundEmpty (W.view w.new).here found) }
    ensures header { IfOk result (λ found. IsFirst found.header) }
    ensures shut { OnOk result ((W.view w.new).tells → IsShut (W.view w.new).here.side) }
    ensures pages { OnOk result ((W.view w.new).tells → HasFixedPages (W.view w.new).here.main) }
    ensures empty { OnOk result ((W.view w.old).tells → IsVacant (W.view w.old).here) }

    ensures not_empty { result ≡ Err LayStop.NotEmpty → Untouched (W.view w.old) (W.view w.new) × ((W.view w.new).tells → HasBytes (W.view w.new).here) }
    ensures memory { result ≡ Err LayStop.Memory → Untouched (W.view w.old) (W.view w.new) × ((W.view w.new).tells → IsVacant (W.view w.new).here) }
    ensures fault { result ≡ Err LayStop.Fault → Rose (W.view w.old).disk_faults (W.view w.new).disk_faults }
    // Files that have bytes stay as they are.
    ensures kept { (W.view w.old).tells → HasBytes (W.view w.old).here → Untouched (W.view w.old) (W.view w.new) × ((result ≡ Err LayStop.NotEmpty) ⊎ (result ≡ Err LayStop.Fault)) }

    ensures settled { Settled (W.view w.old) → OnOk result (Settled (W.view w.new)) }
    ensures counts { NeverFall (W.view w.old) (W.view w.new) }
    ensures told { (W.view w.new).tells → (W.view w.old).tells }
    ensures input { (W.view w.new).tells → (W.view w.new).input ≡ (W.view w.old).input }
    ensures copy { (W.view w.new).tells → (W.view w.new).here.copy ≡ (W.view w.old).here.copy }
    ensures said { (W.view w.new).tells → (W.view w.new).here.said ≡ (W.view w.old).here.said }
{
    check_vacant(w)?;
    let found = find_none(alloc)?;
    let parts = parts(alloc, &found.header)?;
    put_parts(w, &found.header, parts.as_slice())?;
    Ok(found)
}

/// Looks whether Main or Side has bytes.
fn check_vacant<W: Outside>(w: &mut W) -> Result<(), LayStop>
    ensures vacant { OnOk result ((W.view w.new).tells → IsVacant (W.view w.new).here) }
    ensures not_empty { result ≡ Err LayStop.NotEmpty → (W.view w.new).tells → HasBytes (W.view w.new).here }
    ensures fault { result ≡ Err LayStop.Fault → Rose (W.view w.old).disk_faults (W.view w.new).disk_faults }
    ensures no_memory { result ≢ Err LayStop.Memory }
    ensures same { Untouched (W.view w.old) (W.view w.new) }
{
    if w.len(Part::Main)? != 0 {
        return Err(LayStop::NotEmpty);
    }
    if w.len(Part::Side)? != 0 {
        return Err(LayStop::NotEmpty);
    }
    Ok(())
}

/// Writes the parts of a file with this header into Main, and shuts the gate.
fn put_parts<W: Outside>(w: &mut W, header: &Header, parts: &[Piece]) -> Result<(), Failed>
    requires first { IsFirst header.now }
    requires parts { AreParts header.now parts.now }
    requires vacant { (W.view w.old).tells → IsVacant (W.view w.old).here }
    ensures counts { NeverFall (W.view w.old) (W.view w.new) }
    ensures cause { OnErr result (Rose (W.view w.old).disk_faults (W.view w.new).disk_faults) }
    ensures told { (W.view w.new).tells → (W.view w.old).tells }
    ensures input { (W.view w.new).tells → (W.view w.new).input ≡ (W.view w.old).input }
    ensures copy { (W.view w.new).tells → (W.view w.new).here.copy ≡ (W.view w.old).here.copy }
    ensures said { (W.view w.new).tells → (W.view w.new).here.said ≡ (W.view w.old).here.said }
    ensures settled { Settled (W.view w.old) → OnOk result (Settled (W.view w.new)) }
    ensures shut { OnOk result ((W.view w.new).tells → IsShut (W.view w.new).here.side) }
    ensures lays { OnOk result ((W.view w.new).tells → LaysNothing header.now (W.view w.new).here) }
    ensures pages { OnOk result ((W.view w.new).tells → HasFixedPages (W.view w.new).here.main) }
{
    write_pieces(w, parts)?;
    close_gate(w, 0)?;
    Ok(())
}
