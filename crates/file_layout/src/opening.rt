//! The header that counts.
ghost use Rattle.std.specs.Prelude.{◌≡◌, ◌≢◌, ◌≤◌, ℕ, length, Err, IfOk, OnErr};
ghost use Rattle.pst_outside.specs.Calls.{Rose, Untouched};
ghost use Rattle.pst_header.specs.Format.{reading};
ghost use Rattle.gate_file.specs.Effective.{is_open, header_bytes};
ghost use Rattle.file_layout.specs.Opening.{Opens, ReadsAs};

use crate::stops::{OpenRefusal, OpenStop};
use gate_file::{HEADER_LEN, SIDE_LEN};
use pst_header::Header;
use pst_outside::{Failed, Outside, Part, read_part};

/// A header that counts, and whether it does so behind an open gate.
#[derive(Clone, Copy, Debug, PartialEq, Eq)]
pub struct Opened {
    pub header: Header,
    pub gate_open: bool,
}

/// The header that counts: that of the gate's file where the gate is open, else that of the store's file. Reads both files' lengths and at most one byte and one header. The first refusal is answered, or `Fault` where the disk fails.
#[tactic(auto, unfolding(crate::specs::Opening::opening))]
pub fn open_header<W: Outside>(w: &mut W) -> Result<Opened, OpenStop>
    ensures opens { (W.view w.new).tells → Opens result (W.view w.new).here.main (W.view w.new).here.side }
    ensures fault { result ≡ Err OpenStop.Fault → Rose (W.view w.old).disk_faults (W.view w.new).disk_faults }
    // It takes no memory, and checks nothing twice.
    ensures no_memory { result ≢ Err OpenStop.Memory }
    ensures unchanged { (ib stored computed : ℕ) → result ≢ Err (OpenStop.Changed ib stored computed) }
    ensures same { Untouched (W.view w.old) (W.view w.new) }
{
    let main_len = w.len(Part::Main)?;
    if main_len == 0 {
        return Err(OpenStop::Refused(OpenRefusal::Empty));
    }
    let side_len = w.len(Part::Side)?;
    if side_len > SIDE_LEN {
        return Err(OpenStop::Refused(OpenRefusal::Gate { len: side_len }));
    }
    if main_len < HEADER_LEN as u64 {
        return Err(OpenStop::Refused(OpenRefusal::Short { len: main_len }));
    }
    let gate_open = read_gate(w, side_len)?;
    let bytes = read_header(w, gate_open)?;
    read_as(&bytes, gate_open)
}

/// Whether the gate is open. Only a file of the whole length can be.
fn read_gate<W: Outside>(w: &mut W, side_len: u64) -> Result<bool, Failed>
    requires { (W.view w.old).tells → length (W.view w.old).here.side ≡ side_len }
    ensures gate { IfOk result (λ open_gate. (W.view w.new).tells → open_gate ≡ is_open (W.view w.new).here.side) }
    ensures cause { OnErr result (Rose (W.view w.old).disk_faults (W.view w.new).disk_faults) }
    ensures same { Untouched (W.view w.old) (W.view w.new) }
{
    if side_len != SIDE_LEN {
        return Ok(false);
    }
    let mut gate = [0];
    read_part(w, Part::Side, 0, &mut gate)?;
    Ok(gate[0] == 1)
}

/// The header that counts, as bytes.
fn read_header<W: Outside>(w: &mut W, gate_open: bool) -> Result<[u8; 564], Failed>
    requires main { (W.view w.old).tells → 564 ≤ length (W.view w.old).here.main }
    requires gate { (W.view w.old).tells → gate_open ≡ is_open (W.view w.old).here.side }
    ensures bytes { IfOk result (λ bytes. (W.view w.new).tells → bytes ≡ header_bytes (W.view w.new).here.main (W.view w.new).here.side) }
    ensures cause { OnErr result (Rose (W.view w.old).disk_faults (W.view w.new).disk_faults) }
    ensures same { Untouched (W.view w.old) (W.view w.new) }
{
    let mut bytes = [0; 564];
    if gate_open {
        read_part(w, Part::Side, 16, &mut bytes)?;
    } else {
        read_part(w, Part::Main, 0, &mut bytes)?;
    }
    Ok(bytes)
}

/// The header that counts, as bytes that nothing has checked: that of the gate's file where the gate is open, else that of the store's file, which must be as long as a header. `Failed` comes where the disk fails.
pub fn counted_header<W: Outside>(w: &mut W) -> Result<[u8; 564], Failed>
    requires { (W.view w.old).tells → 564 ≤ length (W.view w.old).here.main }
    ensures bytes { IfOk result (λ bytes. (W.view w.new).tells → bytes ≡ header_bytes (W.view w.new).here.main (W.view w.new).here.side) }
    ensures cause { OnErr result (Rose (W.view w.old).disk_faults (W.view w.new).disk_faults) }
    ensures same { Untouched (W.view w.old) (W.view w.new) }
{
    let side_len = w.len(Part::Side)?;
    let gate_open = read_gate(w, side_len)?;
    read_header(w, gate_open)
}

/// The header that the bytes are, or its refusal.
fn read_as(bytes: &[u8; 564], gate_open: bool) -> Result<Opened, OpenStop>
    ensures reads { ReadsAs result (reading bytes.now) gate_open }
    ensures no_memory { result ≢ Err OpenStop.Memory }
    ensures unchanged { (ib stored computed : ℕ) → result ≢ Err (OpenStop.Changed ib stored computed) }
{
    match pst_header::read(bytes) {
        Ok(header) => Ok(Opened { header, gate_open }),
        Err(refusal) => Err(OpenStop::Refused(OpenRefusal::Header(refusal))),
    }
}
