//! The world over a real file.
use file_world::{Access, FileWorld, Trouble};
use pst_outside::*;
use std::fs;
use std::test::Fail;

const MAIN: &str = "outside_test.pst";

const SIDE: &str = "outside_test.pst.gate";

/// Whether the file has no bytes.
fn is_empty<W: Outside>(w: &mut W) -> bool {
    let mut buf = [0; 6];
    w.len(Part::Main) == Ok(0) && w.read_at(Part::Main, 0, &mut buf) == Ok(0)
}

/// Writes both files, and makes the first stable.
fn fill<W: Outside>(w: &mut W) -> Result<(), Failed> {
    w.write_at(Part::Main, 1, b"bcd")?;
    w.write_at(Part::Side, 0, b"x")?;
    w.sync(Part::Main)
}

/// Whether the file holds what was written, behind a zero.
fn is_filled<W: Outside>(w: &mut W) -> bool {
    let mut buf = *b"......";
    w.read_at(Part::Main, 0, &mut buf) == Ok(4) && buf == *b"\0bcd.."
}

/// Whether neither the length nor a byte of the file can be had.
fn fails<W: Outside>(w: &mut W) -> bool {
    let mut buf = [0; 6];
    w.len(Part::Main) == Err(Failed) && w.read_at(Part::Main, 0, &mut buf) == Err(Failed)
}

/// Whether nothing stands there, also once that was looked at.
fn stays_unmade<W: Outside>(rt: &HostRuntime, w: &mut W) -> Result<bool, Fail> {
    let is_empty = is_empty(w);
    Ok(is_empty && !fs::exists(rt, MAIN)?)
}

/// Whether both files are written, and nothing else.
fn is_written<W: Outside>(w: &mut W) -> bool {
    fill(w).is_ok() && is_filled(w) && w.write_at(Part::Copy, 0, b"x").is_err()
}

/// Whether the second file has just its byte.
fn has_side(rt: &HostRuntime) -> Result<bool, Fail> {
    let bytes = fs::read(rt, SIDE)?;
    Ok(bytes.as_slice() == b"x".as_slice())
}

/// Takes both files away.
fn clear(rt: &HostRuntime) -> Result<(), Fail> {
    fs::remove_file(rt, MAIN)?;
    fs::remove_file(rt, SIDE)?;
    Ok(())
}

#[test]
fn a_file_is_made_at_its_first_write(rt: HostRuntime) -> Result<(), Fail> {
    let main = String::from_str(rt.alloc(), MAIN)?;
    let mut w = FileWorld::new(&rt, main, None, Access::Write)?;
    assert!(rt; stays_unmade(&rt, &mut w)?);
    assert!(rt; is_written(&mut w));
    assert!(rt; has_side(&rt)?);
    clear(&rt)
}

#[test]
fn a_folder_is_no_file(rt: HostRuntime) -> Result<(), Fail> {
    let folder = String::from_str(rt.alloc(), ".")?;
    let mut w = FileWorld::new(&rt, folder, None, Access::Write)?;
    assert!(rt; fails(&mut w));
    Ok(())
}

const SHARED: &str = "shared_test.pst";

/// A world over the file that several worlds are over.
fn shared<'r>(rt: &'r HostRuntime, access: Access) -> Result<FileWorld<&'r HostRuntime>, Fail> {
    let main = String::from_str(rt.alloc(), SHARED)?;
    Ok(FileWorld::new(rt, main, None, access)?)
}

/// Whether the world can't touch its file, since another has its lock.
fn is_kept_out(w: &mut FileWorld<&HostRuntime>) -> bool {
    let has_failed = w.len(Part::Main).is_err() && w.write_at(Part::Main, 0, b"y").is_err();
    match w.cause() {
        Some(cause) => has_failed && matches!(&cause.trouble, Trouble::Busy),
        None => false,
    }
}

/// Whether the world reads the byte of its file, and neither writes nor makes anything.
fn only_reads(w: &mut FileWorld<&HostRuntime>) -> bool {
    w.len(Part::Main) == Ok(1)
        && w.write_at(Part::Main, 0, b"y").is_err()
        && w.write_at(Part::Side, 0, b"y").is_err()
}

/// Whether a world that has written keeps out a second writer and a reader.
fn one_writes(rt: &HostRuntime) -> Result<bool, Fail> {
    let mut one = shared(rt, Access::Write)?;
    let has_written = one.write_at(Part::Main, 0, b"x").is_ok();
    Ok(
        has_written
            && is_kept_out(&mut shared(rt, Access::Write)?)
            && is_kept_out(&mut shared(rt, Access::Read)?),
    )
}

/// Whether two worlds that read keep out a writer alone.
fn two_read(rt: &HostRuntime) -> Result<bool, Fail> {
    let mut one = shared(rt, Access::Read)?;
    Ok(
        only_reads(&mut one)
            && only_reads(&mut shared(rt, Access::Read)?)
            && is_kept_out(&mut shared(rt, Access::Write)?),
    )
}

#[test]
fn one_writes_or_some_read(rt: HostRuntime) -> Result<(), Fail> {
    assert!(rt; one_writes(&rt)?);
    assert!(rt; two_read(&rt)?);
    assert!(rt; !fs::exists(&rt, "shared_test.pst.gate")?);
    fs::remove_file(&rt, SHARED)?;
    Ok(())
}

const COPIED: &str = "copied_test.pst";

/// A world over a file, with one of this name for its copy.
fn copying<'r>(rt: &'r HostRuntime, copy: &str) -> Result<FileWorld<&'r HostRuntime>, Fail> {
    let main = String::from_str(rt.alloc(), COPIED)?;
    let copy = String::from_str(rt.alloc(), copy)?;
    Ok(FileWorld::new(rt, main, Some(copy), Access::Read)?)
}

/// Whether a write to a copy of that name fails, since it is the gate.
fn is_gate(rt: &HostRuntime, copy: &str) -> Result<bool, Fail> {
    let mut w = copying(rt, copy)?;
    let has_failed = w.write_at(Part::Copy, 0, b"x").is_err();
    match w.cause() {
        Some(cause) => Ok(has_failed && matches!(&cause.trouble, Trouble::Gate)),
        None => Ok(false),
    }
}

/// Whether a copy of another name is written.
fn is_copied(rt: &HostRuntime) -> Result<bool, Fail> {
    let mut w = copying(rt, "copied_test.to")?;
    let has_written = w.write_at(Part::Copy, 0, b"x").is_ok() && w.sync(Part::Copy).is_ok();
    let bytes = fs::read(rt, "copied_test.to")?;
    fs::remove_file(rt, "copied_test.to")?;
    Ok(has_written && bytes.as_slice() == b"x".as_slice())
}

#[test]
fn the_gate_is_no_copy(rt: HostRuntime) -> Result<(), Fail> {
    assert!(rt; is_gate(&rt, "./copied_test.pst.gate")?);
    assert!(rt; is_gate(&rt, "copied_test.pst.gate")?);
    let gate = fs::read(&rt, "copied_test.pst.gate")?;
    assert!(rt; gate.is_empty());
    assert!(rt; is_copied(&rt)?);
    fs::remove_file(&rt, "copied_test.pst.gate")?;
    Ok(())
}
