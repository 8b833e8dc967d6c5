//! Reading a whole tree.
ghost use Rattle.std.specs.Prelude.{◌≡◌, ◌≤◌, ◌<◌, ◌+◌, ◌-◌, ◌++◌, true, map, length, OnOk, IfErr, IfOk};
ghost use Rattle.pst_outside.specs.Calls.{Rose, Untouched};
ghost use Rattle.file_layout.specs.Trees.{FileTree, tree_in, file_of, is_placed, AllPages, Found, IsWhole, rise_from, root_seat};
ghost use Rattle.file_layout.specs.Walk.{walk, Adds, AddsBefore, AddsReached, StopsWalk, StopsTree, Stands, StopsOutside};

use crate::stops::{OpenRefusal, OpenStop, PageRefusal};
use crate::tree_pages::{Seat, child, read_page, tree_page};
use btree_pages::{Entry, TreePage};
use file_blocks::has_room;
use pst_base::Bref;
use pst_outside::Outside;
use std::alloc::AllocError;

/// The length of a page, in bytes.
const PAGE: usize = 512;

/// Reads the tree of a root, whose pages have this kind (80h for blocks, 81h for nodes; [MS-PST] 2.2.2.7.7), in a file of `eof` bytes: puts the entries of its leaves in the order of their keys behind those in `entries`, and its pages, each once when it is reached, behind those in `pages`. After `Refused` both have got those of the pages before the one at fault, and after another `Err` some. It writes nothing.
///
/// `Page` names the first page that is at fault in the order of the keys; `Fault` comes only where the disk failed.
pub fn read_tree<W: Outside, E: Entry>(
    w: &mut W,
    kind: u8,
    eof: u64,
    root: Bref,
    entries: &mut Vec<E>,
    pages: &mut Vec<Bref>,
) -> Result<(), OpenStop>
    requires { (W.view w.old).tells → eof ≤ length (W.view w.old).here.main }
    ensures tree { OnOk result ((W.view w.new).tells → (found : Found) × IsWhole (tree_in (W.view w.new).here eof kind E.size E.rule) root found × Adds E.entry_of found entries.old.items entries.new.items pages.old.items pages.new.items) }
    ensures only { OnOk result ((W.view w.new).tells → (found : Found) → IsWhole (tree_in (W.view w.new).here eof kind E.size E.rule) root found → Adds E.entry_of found entries.old.items entries.new.items pages.old.items pages.new.items) }
    ensures placed { OnOk result (AllPages eof pages.old.items → AllPages eof pages.new.items) }
    ensures reached { OnOk result ((W.view w.new).tells → AddsReached E.entry_of (tree_in (W.view w.new).here eof kind E.size E.rule) (root_seat root) entries.old.items entries.new.items) }
    ensures before { IfErr result (λ stop. (W.view w.new).tells → AddsBefore stop E.entry_of (tree_in (W.view w.new).here eof kind E.size E.rule) (root_seat root) entries.old.items entries.new.items) }
    ensures refused { IfErr result (λ stop. (W.view w.new).tells → StopsTree stop (tree_in (W.view w.new).here eof kind E.size E.rule) root) }
    ensures fault { result ≡ Err OpenStop.Fault → Rose (W.view w.old).disk_faults (W.view w.new).disk_faults }
    ensures same { Untouched (W.view w.old) (W.view w.new) }
{
    let seat = Seat {
        at: root,
        level: None,
        low: 0,
        high: u64::MAX,
    };
    read_below(w, kind, eof, seat, entries, pages)
}

/// Reads what a seat leads to, in a file of `eof` bytes: puts the entries of the leaves and the pages behind those that are there. A child's level is below its parent's, so it goes no deeper than eight pages.
fn read_below<W: Outside, E: Entry>(
    w: &mut W,
    kind: u8,
    eof: u64,
    seat: Seat,
    entries: &mut Vec<E>,
    pages: &mut Vec<Bref>,
) -> Result<(), OpenStop>
    requires { (W.view w.old).tells → eof ≤ length (W.view w.old).here.main }
    ensures found { OnOk result ((W.view w.new).tells → (found : Found) × (walk (tree_in (W.view w.old).here eof kind E.size E.rule) seat ≡ Ok found) × Adds E.entry_of found entries.old.items entries.new.items pages.old.items pages.new.items) }
    ensures placed { OnOk result (AllPages eof pages.old.items → AllPages eof pages.new.items) }
    ensures reached { OnOk result ((W.view w.new).tells → AddsReached E.entry_of (tree_in (W.view w.old).here eof kind E.size E.rule) seat entries.old.items entries.new.items) }
    ensures before { IfErr result (λ stop. (W.view w.new).tells → AddsBefore stop E.entry_of (tree_in (W.view w.old).here eof kind E.size E.rule) seat entries.old.items entries.new.items) }
    ensures refused { IfErr result (λ stop. (W.view w.new).tells → StopsWalk stop (walk (tree_in (W.view w.old).here eof kind E.size E.rule) seat)) }
    ensures cause { IfErr result (λ stop. stop ≡ OpenStop.Fault → Rose (W.view w.old).disk_faults (W.view w.new).disk_faults) }
    ensures same { Untouched (W.view w.old) (W.view w.new) }
{
    let bytes = seat_bytes(w, eof, seat)?;
    let page = match tree_page::<E>(&bytes, kind, seat) {
        Ok(page) => page,
        Err(fault) => return Err(bad_page(seat, PageRefusal::Faulty(fault))),
    };
    pages.push(seat.at)?;
    if page.level() == 0 {
        push_leaf(&page, entries)?;
        return Ok(());
    }
    for i in 0..page.count() {
        read_below(w, kind, eof, child(&page, i, seat.high), entries, pages)?;
    }
    Ok(())
}

/// The bytes of a seat's page, or the refusal where none may stand there.
fn seat_bytes<W: Outside>(w: &mut W, eof: u64, seat: Seat) -> Result<[u8; 512], OpenStop>
    requires { (W.view w.old).tells → eof ≤ length (W.view w.old).here.main }
    ensures bytes { IfOk result (λ b. (W.view w.new).tells → Stands eof seat (file_of (W.view w.old).here) b) }
    ensures placed { IfOk result (λ b. is_placed eof seat.at.ib ≡ true) }
    ensures refused { IfErr result (λ stop. StopsOutside stop eof seat) }
    ensures cause { IfErr result (λ stop. stop ≡ OpenStop.Fault → Rose (W.view w.old).disk_faults (W.view w.new).disk_faults) }
    ensures same { Untouched (W.view w.old) (W.view w.new) }
{
    if !has_room(eof, PAGE, seat.at.ib) {
        return Err(bad_page(seat, PageRefusal::Outside));
    }
    let bytes = read_page(w, seat.at.ib)?;
    Ok(bytes)
}

/// The refusal that names a seat's page.
fn bad_page(seat: Seat, fault: PageRefusal) -> OpenStop
    ensures { result ≡ OpenStop.Refused (OpenRefusal.Page seat.at.ib fault) }
{
    OpenStop::Refused(OpenRefusal::Page {
        ib: seat.at.ib,
        fault,
    })
}

/// Puts a leaf's entries behind those that are there.
fn push_leaf<E: Entry>(page: &TreePage<E>, entries: &mut Vec<E>) -> Result<(), AllocError>
    requires { page.now.level ≡ 0 }
    ensures { OnOk result (entries.new.items ≡ entries.old.items ++ map E.entry_of page.now.entries) }
{
    for i in 0..page.count() {
        entries.push(page.leaf(i))?;
    }
    Ok(())
}

/// The keys of all entries of a whole tree ascend strictly, across its leaves too ([MS-PST] 2.2.2.7.7).
pub fn keys_rise()
    ensures { (t : FileTree) (root : Bref) (found : Found) → IsWhole t root found → rise_from t.rule 0 found.entries ≡ true }
{}
