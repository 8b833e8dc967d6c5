//! The header of the file that is decoded.
ghost use Rattle.std.specs.Prelude.{◌≡◌, ◌≤◌, length, IfOk, IfErr, Err};
ghost use Rattle.pst_outside.specs.Calls.{Rose, Untouched};
ghost use Rattle.file_decode.specs.Decoding.{method_of, seen, seen_by, unencoded};
ghost use Rattle.file_decode.specs.Source.{IsEncoded, IsSource, StopsAs, header_in};

use block_encoding::Method;
use file_layout::{OpenRefusal, OpenStop, counted_header, open_header};
use pst_base::{part, put_u8, put_u32};
use pst_checksum::crc;
use pst_header::{Header, HeaderRefusal, read};
use pst_outside::Outside;

/// bCryptMethod, 1 byte.
const CRYPT: usize = 513;

/// dwCRCFull, 4 bytes, and the bytes that it covers. No other checksum covers bCryptMethod.
const CRC_FULL: usize = 524;

const COVERED_FROM: usize = 8;

const COVERED: usize = 516;

/// The header that counts, as that of a file whose blocks aren't encoded.
#[derive(Clone, Copy, Debug, PartialEq, Eq)]
pub struct Source {
    pub header: Header,
    /// The header's bytes.
    pub bytes: [u8; 564],
    /// How the data blocks are encoded, if they are.
    pub method: Option<Method>,
}

/// The encoding with this number.
fn method_of(number: u8) -> Option<Method>
    ensures { result ≡ method_of number }
{
    match number {
        1 => Some(Method::Permuted),
        2 => Some(Method::Cyclic),
        _ => None,
    }
}

/// The header's bytes with bCryptMethod 0, and the checksum over it.
#[tactic(auto, unfolding(crate::specs::Decoding::plain, crate::specs::Decoding::unencoded, pst_header::specs::Format::full_of))]
fn unencoded(bytes: &[u8; 564]) -> [u8; 564]
    ensures { result ≡ unencoded bytes.now }
{
    let mut b = *bytes;
    put_u8(&mut b, CRYPT, 0);
    let full = crc(part(&b, COVERED_FROM, COVERED));
    put_u32(&mut b, CRC_FULL, full);
    b
}

/// The same where the header that counts says that the blocks are encoded by the method of this number; one that isn't known is refused.
fn encoded_source<W: Outside>(w: &mut W, number: u8) -> Result<Source, OpenStop>
    requires { (W.view w.old).tells → 564 ≤ length (W.view w.old).here.main }
    ensures source { IfOk result (λ source. (W.view w.new).tells → IsEncoded number (W.view w.new).here source) }
    ensures refused { IfErr result (λ stop. (W.view w.new).tells → StopsAs stop (seen_by (method_of number) number (header_in (W.view w.new).here))) }
    ensures fault { result ≡ Err OpenStop.Fault → Rose (W.view w.old).disk_faults (W.view w.new).disk_faults }
    ensures same { Untouched (W.view w.old) (W.view w.new) }
{
    let Some(method) = method_of(number) else {
        return Err(OpenStop::Refused(OpenRefusal::Header(HeaderRefusal::Encoded {
            method: number,
        })));
    };
    let bytes = unencoded(&counted_header(w)?);
    match read(&bytes) {
        Ok(header) => Ok(Source {
            header,
            bytes,
            method: Some(method),
        }),
        Err(refusal) => Err(OpenStop::Refused(OpenRefusal::Header(refusal))),
    }
}

/// The header that counts, or the first refusal: as an opening says it, but that both known encodings are none.
pub(crate) fn open_source<W: Outside>(w: &mut W) -> Result<Source, OpenStop>
    ensures source { IfOk result (λ source. (W.view w.new).tells → IsSource (W.view w.new).here source) }
    ensures refused { IfErr result (λ stop. (W.view w.new).tells → StopsAs stop (seen (W.view w.new).here.main (W.view w.new).here.side)) }
    ensures fault { result ≡ Err OpenStop.Fault → Rose (W.view w.old).disk_faults (W.view w.new).disk_faults }
    ensures same { Untouched (W.view w.old) (W.view w.new) }
{
    match open_header(w) {
        Ok(opened) => Ok(Source {
            header: opened.header,
            bytes: counted_header(w)?,
            method: None,
        }),
        Err(OpenStop::Refused(OpenRefusal::Header(HeaderRefusal::Encoded { method }))) => {
            encoded_source(w, method)
        }
        Err(stop) => Err(stop),
    }
}
