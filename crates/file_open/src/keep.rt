//! A keeper of a file that was scanned.
ghost use Rattle.std.specs.Prelude.{◌≡◌, ◌^◌, nat_le, Err, IfOk, IfErr, ◌||◌};
ghost use Rattle.pst_outside.specs.Calls.{Rose, Untouched};
ghost use Rattle.file_scan.specs.Found.{IsFound};
ghost use Rattle.node_port.specs.Pins.{no_pins};
ghost use Rattle.pst_commit.specs.Keeping.{pins_of};
ghost use Rattle.file_open.specs.Opening.{IsCalm, IsKept};

use crate::header::found_header;
use crate::stops::FileStop;
use file_laying::FoundStore;
use file_scan::FoundFile;
use pst_commit::FileKeeper;
use pst_outside::Outside;
use std::alloc::Global;

/// The first number of a block or a page that may no more be given.
const SPENT: u64 = 1 << 61;

/// Whether the number of the next block or of the next page is used up.
pub(crate) fn is_spent(found: &FoundFile) -> bool
    ensures { result ≡ nat_le (2 ^ 61) found.now.next_block || nat_le (2 ^ 61) found.now.next_page }
{
    found.next_block >= SPENT || found.next_page >= SPENT
}

/// A keeper of a file that was scanned.
pub(crate) fn keep<W: Outside, S: FoundStore<W> + Drop>(
    alloc: Global,
    w: &mut W,
    found: FoundFile,
) -> Result<FileKeeper<S>, FileStop>
    requires { (W.view w.old).tells → IsFound (W.view w.old).here found }
    ensures kept { IfOk result (λ k. (W.view w.new).tells → IsKept (S.knows k.store) k.found k.header (W.view w.new) found) }
    ensures no_pins { IfOk result (λ k. pins_of k.given (S.held k.store) ≡ no_pins) }
    ensures stops { IfErr result (λ stop. (W.view w.new).tells → IsCalm stop) }
    ensures fault { result ≡ Err FileStop.Fault → Rose (W.view w.old).disk_faults (W.view w.new).disk_faults }
    ensures same { Untouched (W.view w.old) (W.view w.new) }
{
    let header = found.header;
    let bytes = found_header(w, &header)?;
    let store = S::from_found(alloc, found)?;
    Ok(FileKeeper {
        store,
        header,
        found: bytes,
        given: 0,
    })
}
