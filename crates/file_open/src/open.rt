//! An opening: the scan, the keeper, the tree, the numbers, and last the gate.
ghost use Rattle.std.specs.Prelude.{◌≡◌, ◌≤◌, ◌+◌, ℕ, List, length, Err, IfOk, IfErr, OnOk};
ghost use Rattle.pst_outside.specs.Calls.{NeverFall, Rose, Settled, Untouched};
ghost use Rattle.gate_file.specs.Gate.{IsShut, SameStore};
ghost use Rattle.node_port.specs.Nodes.{Nodes};
ghost use Rattle.lays_kept.specs.Stands.{Stands};
ghost use Rattle.mail_searches.specs.Searching.{Searching};
ghost use Rattle.node_port.specs.Pins.{no_pins};
ghost use Rattle.pst_commit.specs.Commit.{LeavesNodes};
ghost use Rattle.pst_commit.specs.Keeping.{pins_of};
ghost use Rattle.file_open.specs.Opening.{HasLeft, IsChecked, IsLooked, IsOpened, ReadsFresh, StopsLooking, StopsOpening};

use crate::keep::{is_spent, keep};
use crate::stops::{FileRefusal, FileStop};
use file_laying::FoundStore;
use file_scan::scan_file;
use gate_file::SIDE_LEN;
use pst_commit::{FileKeeper, close_gate};
use pst_header::Header;
use pst_outside::{Outside, Part};
use std::alloc::Global;
use store_open::{OpenedTree, look_store, open_store};

/// An opened file: the keeper of its nodes, and what is known of their tree and its searches.
#[derive(Drop)]
pub struct OpenedFile<S> {
    pub keeper: FileKeeper<S>,
    pub tree: OpenedTree,
}

/// What was found of a file that could be opened for writing.
#[derive(Clone, Copy, Debug, PartialEq, Eq)]
pub struct CheckedFile {
    /// The header that counts.
    pub header: Header,
    /// The number of the next block.
    pub next_block: u64,
    /// The number of the next page.
    pub next_page: u64,
}

/// A file that could be opened for writing, and what was found of it.
#[derive(Drop)]
struct Whole<S> {
    opened: OpenedFile<S>,
    file: CheckedFile,
}

/// Looks at a file: opens it to be read alone. Nothing is written, so the gate may be left open; whatever its searches list, and where its next numbers are used up.
///
/// The stops are those of `open_file`, but that neither a list nor a next number is refused.
pub fn look_file<W: Outside, S: FoundStore<W> + Drop>(
    alloc: Global,
    w: &mut W,
) -> Result<OpenedFile<S>, FileStop>
    ensures looked { IfOk result (λ o. (W.view w.new).tells → IsLooked (S.knows o.keeper.store) o.keeper.found o.keeper.header (W.view w.old).here (W.view w.new) o.tree) }
    ensures no_pins { IfOk result (λ o. pins_of o.keeper.given (S.held o.keeper.store) ≡ no_pins) }
    ensures refused { IfErr result (λ stop. (W.view w.new).tells → StopsLooking (W.view w.old).here stop) }
    ensures fault { result ≡ Err FileStop.Fault → Rose (W.view w.old).disk_faults (W.view w.new).disk_faults }
    ensures same { Untouched (W.view w.old) (W.view w.new) }
{
    let found = scan_file(alloc, w)?;
    let mut keeper = keep(alloc, w, found)?;
    let tree = look_store(alloc, &mut keeper, w)?;
    Ok(OpenedFile { keeper, tree })
}

/// Finds all that an opening wants to be so before the gate is closed. Nothing is written. The stops are those of `open_file`.
fn find_file<W: Outside, S: FoundStore<W> + Drop>(
    alloc: Global,
    w: &mut W,
) -> Result<Whole<S>, FileStop>
    ensures reads { IfOk result (λ o. (W.view w.new).tells → (X : Searching) × ReadsFresh (W.view w.old).here X) }
    ensures opened { IfOk result (λ o. (W.view w.new).tells → IsOpened (S.knows o.opened.keeper.store) o.opened.keeper.found o.opened.keeper.header (W.view w.old).here (W.view w.new) o.opened.tree) }
    ensures no_pins { IfOk result (λ o. pins_of o.opened.keeper.given (S.held o.opened.keeper.store) ≡ no_pins) }
    ensures checked { IfOk result (λ o. (W.view w.new).tells → IsChecked (W.view w.old).here o.file) }
    ensures left { IfOk result (λ o. HasLeft o.file) }
    ensures refused { IfErr result (λ stop. (W.view w.new).tells → StopsOpening (W.view w.old).here stop) }
    ensures fault { result ≡ Err FileStop.Fault → Rose (W.view w.old).disk_faults (W.view w.new).disk_faults }
    ensures same { Untouched (W.view w.old) (W.view w.new) }
{
    let found = scan_file(alloc, w)?;
    let spent = is_spent(&found);
    let file = CheckedFile {
        header: found.header,
        next_block: found.next_block,
        next_page: found.next_page,
    };
    let mut keeper = keep(alloc, w, found)?;
    let tree = open_store(alloc, &mut keeper, w)?;
    if spent {
        return Err(FileStop::Refused(FileRefusal::Ids));
    }
    Ok(Whole {
        opened: OpenedFile { keeper, tree },
        file,
    })
}

/// Looks whether a file could be opened for writing, and what is found of it. Nothing is written. The stops are those of `open_file`.
pub fn check_file<W: Outside, S: FoundStore<W> + Drop>(
    alloc: Global,
    w: &mut W,
) -> Result<CheckedFile, FileStop>
    ensures reads { IfOk result (λ file. (W.view w.new).tells → (X : Searching) × ReadsFresh (W.view w.old).here X) }
    ensures checked { IfOk result (λ file. (W.view w.new).tells → IsChecked (W.view w.old).here file) }
    ensures left { IfOk result HasLeft }
    ensures refused { IfErr result (λ stop. (W.view w.new).tells → StopsOpening (W.view w.old).here stop) }
    ensures fault { result ≡ Err FileStop.Fault → Rose (W.view w.old).disk_faults (W.view w.new).disk_faults }
    ensures same { Untouched (W.view w.old) (W.view w.new) }
{
    let whole = find_file::<W, S>(alloc, w)?;
    Ok(whole.file)
}

/// The length of the gate's file, of a file that opens.
fn side_len<W: Outside>(w: &mut W) -> Result<u64, FileStop>
    requires { (W.view w.old).tells → length (W.view w.old).here.side ≤ 580 }
    ensures len { IfOk result (λ n. (W.view w.new).tells → length (W.view w.new).here.side ≡ n) }
    ensures size { IfOk result (λ n. n ≤ 580) }
    ensures stops { IfErr result (λ stop. (W.view w.new).tells → stop ≡ FileStop.Fault) }
    ensures fault { result ≡ Err FileStop.Fault → Rose (W.view w.old).disk_faults (W.view w.new).disk_faults }
    ensures same { Untouched (W.view w.old) (W.view w.new) }
{
    let len = w.len(Part::Side)?;
    if len > SIDE_LEN {
        return Err(FileStop::Changed {
            ib: 0,
            stored: SIDE_LEN,
            computed: len,
        });
    }
    Ok(len)
}

/// Opens a file for writing: its tree is that of its bytes, and the gate that a stop has left is closed last.
///
/// `Refused` names the first thing that is wrong: with the header, the file's length, the pages, blocks, nodes and places as `file_scan` finds them, with the folders, tables, messages and searches as `store_open` does, and last that a next number is used up. `Fault` comes where the disk failed, `Memory` where there was none, and `Changed` where something isn't as it was found before, never over a world that tells.
pub fn open_file<W: Outside, S: FoundStore<W> + Drop>(
    alloc: Global,
    w: &mut W,
) -> Result<OpenedFile<S>, FileStop>
    ensures reads { IfOk result (λ o. (W.view w.new).tells → (X : Searching) × ReadsFresh (W.view w.old).here X) }
    ensures opened { IfOk result (λ o. (W.view w.new).tells → IsOpened (S.knows o.keeper.store) o.keeper.found o.keeper.header (W.view w.old).here (W.view w.new) o.tree) }
    ensures no_pins { IfOk result (λ o. pins_of o.keeper.given (S.held o.keeper.store) ≡ no_pins) }
    ensures refused { IfErr result (λ stop. (W.view w.new).tells → StopsOpening (W.view w.old).here stop) }
    ensures fault { result ≡ Err FileStop.Fault → Rose (W.view w.old).disk_faults (W.view w.new).disk_faults }
    // The files stand for the same afterwards, and nothing is pending if nothing was.
    ensures store { (W.view w.new).tells → SameStore (W.view w.old).here (W.view w.new).here }
    ensures shut { OnOk result ((W.view w.new).tells → IsShut (W.view w.new).here.side) }
    ensures settled { Settled (W.view w.old) → OnOk result (Settled (W.view w.new)) }
    // Whatever but the disk's failure stops an opening does so before anything is written.
    ensures clean { IfErr result (λ stop. (stop ≡ FileStop.Fault → ⊥) → Untouched (W.view w.old) (W.view w.new)) }
    // Files that are no tree with numbers left stay as they are, whatever stops it.
    ensures kept { IfErr result (λ stop. (W.view w.new).tells → ((X : Searching) → ReadsFresh (W.view w.old).here X → ⊥) → Untouched (W.view w.old) (W.view w.new)) }
    // A crash at any moment leaves the same nodes.
    ensures any_moment { Settled (W.view w.old) → (found : List ℕ) (N : Nodes) (last : List ℕ) → ((W.view w.old).tells → Stands found (W.view w.old).here N last)
        → LeavesNodes (W.view w.old) (W.view w.new) found N last }
    ensures told { (W.view w.new).tells → (W.view w.old).tells }
    ensures input { (W.view w.new).tells → (W.view w.new).input ≡ (W.view w.old).input }
    ensures counts { NeverFall (W.view w.old) (W.view w.new) }
    // Little is written, and nothing where the gate was shut already.
    ensures written { (W.view w.new).written ≤ (W.view w.old).written + 580 }
    ensures idle { (W.view w.new).tells → IsShut (W.view w.old).here.side → Untouched (W.view w.old) (W.view w.new) }
{
    let whole = find_file::<W, S>(alloc, w)?;
    let side_len = side_len(w)?;
    close_gate(w, side_len)?;
    Ok(whole.opened)
}

/// Opens a file for the mending of its searches: as `open_file` does, but that neither a list nor a next number is refused. The gate that a stop has left is closed last.
///
/// The stops are those of `look_file`.
pub fn open_mendable<W: Outside, S: FoundStore<W> + Drop>(
    alloc: Global,
    w: &mut W,
) -> Result<OpenedFile<S>, FileStop>
    ensures looked { IfOk result (λ o. (W.view w.new).tells → IsLooked (S.knows o.keeper.store) o.keeper.found o.keeper.header (W.view w.old).here (W.view w.new) o.tree) }
    ensures no_pins { IfOk result (λ o. pins_of o.keeper.given (S.held o.keeper.store) ≡ no_pins) }
    ensures refused { IfErr result (λ stop. (W.view w.new).tells → StopsLooking (W.view w.old).here stop) }
    ensures fault { result ≡ Err FileStop.Fault → Rose (W.view w.old).disk_faults (W.view w.new).disk_faults }
    // The files stand for the same afterwards, and nothing is pending if nothing was.
    ensures store { (W.view w.new).tells → SameStore (W.view w.old).here (W.view w.new).here }
    ensures shut { OnOk result ((W.view w.new).tells → IsShut (W.view w.new).here.side) }
    ensures settled { Settled (W.view w.old) → OnOk result (Settled (W.view w.new)) }
    // Whatever but the disk's failure stops an opening does so before anything is written.
    ensures clean { IfErr result (λ stop. (stop ≡ FileStop.Fault → ⊥) → Untouched (W.view w.old) (W.view w.new)) }
    // A crash at any moment leaves the same nodes.
    ensures any_moment { Settled (W.view w.old) → (found : List ℕ) (N : Nodes) (last : List ℕ) → ((W.view w.old).tells → Stands found (W.view w.old).here N last)
        → LeavesNodes (W.view w.old) (W.view w.new) found N last }
    ensures told { (W.view w.new).tells → (W.view w.old).tells }
    ensures input { (W.view w.new).tells → (W.view w.new).input ≡ (W.view w.old).input }
    ensures counts { NeverFall (W.view w.old) (W.view w.new) }
    // Little is written, and nothing where the gate was shut already.
    ensures written { (W.view w.new).written ≤ (W.view w.old).written + 580 }
    ensures idle { (W.view w.new).tells → IsShut (W.view w.old).here.side → Untouched (W.view w.old) (W.view w.new) }
{
    let opened = look_file::<W, S>(alloc, w)?;
    let side_len = side_len(w)?;
    close_gate(w, side_len)?;
    Ok(opened)
}
