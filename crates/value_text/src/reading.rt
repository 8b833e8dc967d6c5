//! A text read as a value.
ghost use Rattle.std.specs.Prelude.{◌≡◌, chars, option_and_then, option_map};
ghost use Rattle.pst_base.specs.Stops.{Finds};
ghost use Rattle.mapi_values.specs.Spelling.{units_of};
ghost use Rattle.value_text.specs.Forms.{bytes_said, fitting, guid_bytes, is_number, value_said};
ghost use Rattle.value_text.specs.Hex.{hex_bytes};
ghost use Rattle.value_text.specs.Truths.{truth_bytes};
ghost use Rattle.value_text.specs.UnitBytes.{units_bytes};

use crate::BadValue;
use crate::hex::read_hex;
use crate::numbers::read_number;
use crate::unit_bytes::bytes_of_units;
use mapi_values::{Tag, Value, fits, parse_units};
use pst_base::{Bytes, MemOr};
use std::alloc::Global;

/// Whether a kind is one of numbers: signed ones of 2, 4 and 8 bytes, and a time.
#[tactic(auto, unfolding(crate::specs::Forms::is_number))]
fn is_number(kind: u16) -> bool
    ensures { result ≡ is_number kind }
{
    matches!(kind, 0x0002 | 0x0003 | 0x0014 | 0x0040)
}

/// The byte of `true` or `false`.
#[tactic(auto, unfolding(crate::specs::Truths::truth_bytes))]
fn read_truth(alloc: Global, text: &str) -> Result<Bytes, MemOr<BadValue>>
    ensures { Finds (λ bytes. bytes) result (truth_bytes text.now) }
{
    match text {
        "true" => Ok(Bytes::from_slice(alloc, &[1])?),
        "false" => Ok(Bytes::from_slice(alloc, &[0])?),
        _ => Err(MemOr::Refused(BadValue)),
    }
}

/// The bytes of a text with escapes.
fn read_text(alloc: Global, text: &str) -> Result<Bytes, MemOr<BadValue>>
    ensures { Finds (λ bytes. bytes) result (option_map units_bytes (units_of (chars text.now))) }
{
    match parse_units(alloc, text) {
        Ok(units) => Ok(bytes_of_units(alloc, &units)?),
        Err(MemOr::Memory) => Err(MemOr::Memory),
        Err(MemOr::Refused(_)) => Err(MemOr::Refused(BadValue)),
    }
}

/// The 16 bytes of a GUID in hex.
#[tactic(auto, unfolding(crate::specs::Forms::guid_bytes))]
fn read_guid(alloc: Global, text: &str) -> Result<Bytes, MemOr<BadValue>>
    ensures { Finds (λ bytes. bytes) result (option_and_then guid_bytes (hex_bytes text.now)) }
{
    match read_hex(alloc, text.as_bytes()) {
        Ok(bytes) => {
            if bytes.len() == 16 {
                Ok(bytes)
            } else {
                Err(MemOr::Refused(BadValue))
            }
        }
        Err(stop) => Err(stop),
    }
}

/// The bytes that a text says as a value of a kind.
#[tactic(auto, unfolding(crate::specs::Forms::bytes_said))]
fn read_bytes(alloc: Global, kind: u16, text: &str) -> Result<Bytes, MemOr<BadValue>>
    ensures { Finds (λ bytes. bytes) result (bytes_said kind text.now) }
{
    if is_number(kind) {
        return read_number(alloc, kind, text);
    }
    match kind {
        0x000B => read_truth(alloc, text),
        0x001F => read_text(alloc, text),
        0x0102 => read_hex(alloc, text.as_bytes()),
        0x0048 => read_guid(alloc, text),
        _ => Err(MemOr::Refused(BadValue)),
    }
}

/// The value that a text says: a decimal number for the kinds 0002, 0003 and 0014, which are signed, and 0040, which is below 2^64; `true` or `false` for 000B; text with escapes `\uXXXX` for 001F; an even number of hex digits for 0102, 32 of them for 0048, or `-` for none. The error says that the text isn't of this form, or that the kind is another one.
#[tactic(auto, unfolding(crate::specs::Forms::value_said, crate::specs::Forms::fitting))]
pub fn parse_value(alloc: Global, tag: Tag, text: &str) -> Result<Value, MemOr<BadValue>>
    ensures { Finds (λ value. value) result (value_said tag.id tag.kind text.now) }
{
    match read_bytes(alloc, tag.kind, text) {
        Ok(bytes) => {
            if fits(tag.kind, bytes.len()) {
                Ok(Value::new(tag, bytes))
            } else {
                Err(MemOr::Refused(BadValue))
            }
        }
        Err(stop) => Err(stop),
    }
}
