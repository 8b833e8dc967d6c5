//! The bytes of a header that was found.
ghost use Rattle.std.specs.Prelude.{◌≡◌, take, Ok, Err, IfOk, IfErr, OnOk, IsTrue, ◌↔◌};
ghost use Rattle.pst_outside.specs.Calls.{Rose, Untouched};
ghost use Rattle.pst_header.specs.Format.{IsWritable, reading};
ghost use Rattle.file_blocks.specs.Blocks.{file_of};
ghost use Rattle.file_layout.specs.Opening.{opening};

use crate::stops::FileStop;
use file_layout::counted_header;
use pst_header::Header;
use pst_outside::Outside;

/// Whether bytes are a header's.
fn is_header(bytes: &[u8; 564], header: &Header) -> bool
    ensures reads { IsTrue result ↔ (reading bytes.now ≡ Ok header.now) }
    ensures writable { IsTrue result → IsWritable header.now }
{
    match pst_header::read(bytes) {
        Ok(read) => read == *header,
        Err(_) => false,
    }
}

/// The bytes of the header that counts, which is that one.
pub(crate) fn found_header<W: Outside>(w: &mut W, header: &Header) -> Result<[u8; 564], FileStop>
    requires { (W.view w.old).tells → opening (W.view w.old).here.main (W.view w.old).here.side ≡ Ok header.now }
    ensures bytes { IfOk result (λ bytes. (W.view w.new).tells → bytes ≡ take 564 (file_of (W.view w.new).here)) }
    ensures reads { IfOk result (λ bytes. reading bytes ≡ Ok header.now) }
    ensures writable { OnOk result (IsWritable header.now) }
    ensures stops { IfErr result (λ stop. (W.view w.new).tells → stop ≡ FileStop.Fault) }
    ensures fault { result ≡ Err FileStop.Fault → Rose (W.view w.old).disk_faults (W.view w.new).disk_faults }
    ensures same { Untouched (W.view w.old) (W.view w.new) }
{
    let bytes = counted_header(w)?;
    if !is_header(&bytes, header) {
        return Err(FileStop::Changed {
            ib: 0,
            stored: 0,
            computed: 0,
        });
    }
    Ok(bytes)
}
