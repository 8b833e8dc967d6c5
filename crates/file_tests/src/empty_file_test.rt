//! A file without nodes, by the format.
use empty_file::{LayStop, lay_empty};
use file_scan::scan_nodes;
use pst_base::{Bytes, u16_at, u64_at};
use pst_outside::{FailPlan, MemWorld, Part};
use std::alloc::{AllocError, Global};
use std::test::Fail;

/// What a page shows: its first byte, its kind twice, its signature and its id.
type Row = (u8, u8, u8, u16, u64);

/// The page at a place, or zeros past the end.
fn row(file: &[u8], at: usize) -> Row {
    if at > file.len() || file.len() - at < 512 {
        return (0, 0, 0, 0, 0);
    }
    let page = &file[at..at + 512];
    (
        page[0],
        page[496],
        page[497],
        u16_at(page, 498),
        u64_at(page, 504),
    )
}

/// A world with nothing on its disk, which is dead from a call on.
fn world(alloc: Global, dead_from: Option<u64>) -> Result<MemWorld, AllocError> {
    let mut fails = FailPlan::none(alloc);
    fails.dead_from = dead_from;
    let none = || Bytes::new(alloc);
    MemWorld::new(alloc, none(), none(), none(), none(), fails)
}

/// Whether the file has its fixed pages and the roots of both trees.
fn has_pages(file: &[u8]) -> bool {
    let rows: [(usize, Row); 5] = [
        (0x4200, (0, 0x86, 0x86, 0x4201, 1)),
        (0x4400, (0xff, 0x84, 0x84, 0, 0x4400)),
        (0x4600, (0xff, 0x83, 0x83, 0, 0x4600)),
        (0x4c00, (0, 0x80, 0x80, 0x4c02, 2)),
        (0x4e00, (0, 0x81, 0x81, 0x4e03, 3)),
    ];
    rows.into_iter().all(|(at, wanted)| row(file, at) == wanted)
}

/// Why no file is laid there.
fn stop_at(alloc: Global, w: &mut MemWorld) -> Option<LayStop> {
    lay_empty(alloc, w).err()
}

/// The number of nodes that a scan finds.
fn nodes_at(alloc: Global, w: &mut MemWorld) -> Option<usize> {
    scan_nodes(alloc, w).ok().map(|lines| lines.len())
}

#[test]
fn a_file_without_nodes_is_laid_once(rt: HostRuntime) -> Result<(), Fail> {
    let mut w = world(rt.alloc(), None)?;
    let stop = stop_at(rt.alloc(), &mut w);
    let file = w.content(Part::Main);
    let is_whole = file.len() == 271_360 && has_pages(file);
    let nodes = nodes_at(rt.alloc(), &mut w);
    let again = stop_at(rt.alloc(), &mut w);
    assert!(rt; stop.is_none() && is_whole);
    assert!(rt; nodes == Some(0) && again == Some(LayStop::NotEmpty));
    Ok(())
}

#[test]
fn a_dead_disk_gets_no_file(rt: HostRuntime) -> Result<(), Fail> {
    let mut w = world(rt.alloc(), Some(3))?;
    let stop = stop_at(rt.alloc(), &mut w);
    assert!(rt; stop == Some(LayStop::Fault));
    Ok(())
}
