//! Numbers in decimal, and their bits.
ghost use Rattle.std.specs.Prelude.{◌≡◌, ◌+◌, ◌^◌, ◌<◌, ◌≤◌, ◌++◌, length, IfOk, OnOk, string_bytes};
ghost use Rattle.std.specs.Char.{is_ascii_digit};
ghost use Rattle.std.specs.List.{list_all};
ghost use Rattle.pst_base.specs.Stops.{Finds};
ghost use Rattle.byteorder.specs.Endian.{little_bytes};
ghost use Rattle.value_text.specs.Numbers.{magnitude, number_bits, number_bytes, number_text, number_width, signed_bits, signed_magnitude, signed_text, unsigned_bits};

use crate::BadValue;
use byteorder::{ByteOrder, LittleEndian};
use pst_base::{Bytes, MemOr};
use std::alloc::{AllocError, Global};
use std::fmt::Write;

/// Whether a text has no other bytes than digits.
fn all_digits(text: &str) -> bool
    ensures { result ≡ list_all is_ascii_digit text.now }
{
    text.as_bytes().iter().all(|byte| byte.is_ascii_digit())
}

/// The number that one or more digits write, where it is below 2^64.
#[tactic(auto, unfolding(crate::specs::Numbers::magnitude))]
pub fn magnitude(digits: &str) -> Option<u64>
    ensures { result ≡ magnitude digits.now }
{
    if !all_digits(digits) {
        return None;
    }
    digits.parse::<u64>().ok()
}

/// Whether a minus stands before the digits of a text, and the number that they write.
#[tactic(auto, unfolding(crate::specs::Numbers::signed_magnitude))]
fn signed_magnitude(text: &str) -> Option<(bool, u64)>
    ensures { result ≡ signed_magnitude text.now }
{
    match text.strip_prefix('-') {
        Some(digits) => match magnitude(digits) {
            Some(size) => Some((true, size)),
            None => None,
        },
        None => match magnitude(text) {
            Some(size) => Some((false, size)),
            None => None,
        },
    }
}

/// The two's complement of a number, below twice `half`, where the number is at most `half` below zero and less than `half` above it.
#[tactic(auto, unfolding(crate::specs::Numbers::signed_bits))]
fn signed_bits(half: u64, number: (bool, u64)) -> Option<u64>
    requires { half ≤ 2 ^ 63 }
    ensures { result ≡ signed_bits half number }
{
    let (negative, size) = number;
    if negative {
        if size == 0 {
            Some(0)
        } else if size <= half {
            Some(half + (half - size))
        } else {
            None
        }
    } else if size < half {
        Some(size)
    } else {
        None
    }
}

/// The number itself, which isn't below zero.
#[tactic(auto, unfolding(crate::specs::Numbers::unsigned_bits))]
fn unsigned_bits(number: (bool, u64)) -> Option<u64>
    ensures { result ≡ unsigned_bits number }
{
    let (negative, size) = number;
    if negative && size > 0 {
        None
    } else {
        Some(size)
    }
}

/// The bits of a number of one of the kinds of numbers.
#[tactic(auto, unfolding(crate::specs::Numbers::number_bits))]
fn number_bits(kind: u16, number: (bool, u64)) -> Option<u64>
    ensures { result ≡ number_bits kind number }
{
    match kind {
        0x0002 => signed_bits(1 << 15, number),
        0x0003 => signed_bits(1 << 31, number),
        0x0014 => signed_bits(1 << 63, number),
        _ => unsigned_bits(number),
    }
}

/// The lowest bytes of a number of one of the kinds of numbers, the lowest first.
#[tactic(auto, unfolding(crate::specs::Numbers::number_width))]
fn make_bytes(alloc: Global, kind: u16, number: u64) -> Result<Bytes, AllocError>
    ensures { IfOk result (λ bytes. bytes ≡ little_bytes (number_width kind) number) }
{
    let bytes = number.to_le_bytes();
    match kind {
        0x0002 => Bytes::from_slice(alloc, &bytes[..2]),
        0x0003 => Bytes::from_slice(alloc, &bytes[..4]),
        _ => Bytes::from_slice(alloc, &bytes),
    }
}

/// The bytes of a number of one of the kinds of numbers that a text writes in decimal.
#[tactic(auto, unfolding(crate::specs::Numbers::number_bytes))]
pub fn read_number(alloc: Global, kind: u16, text: &str) -> Result<Bytes, MemOr<BadValue>>
    ensures { Finds (λ bytes. bytes) result (number_bytes kind text.now) }
{
    let Some(number) = signed_magnitude(text) else {
        return Err(MemOr::Refused(BadValue));
    };
    let Some(bits) = number_bits(kind, number) else {
        return Err(MemOr::Refused(BadValue));
    };
    Ok(make_bytes(alloc, kind, bits)?)
}

/// Puts a number in decimal at the end of a text, of bits that are two's complement by this half.
#[tactic(auto, unfolding(crate::specs::Numbers::signed_text))]
pub fn push_signed(text: &mut String, half: u64, bits: u64) -> Result<(), AllocError>
    requires { bits < half + half }
    ensures { OnOk result (string_bytes text.new ≡ string_bytes text.old ++ signed_text half bits) }
{
    if bits < half {
        write!(text, "{bits}")
    } else {
        let size = half - (bits - half);
        write!(text, "-{size}")
    }
}

/// Puts a number of one of the kinds of numbers, of as many bytes as its kind has, at the end of a text.
#[tactic(auto, unfolding(crate::specs::Numbers::number_text, crate::specs::Numbers::number_width))]
pub fn push_number(text: &mut String, kind: u16, bytes: &[u8]) -> Result<(), AllocError>
    requires { number_width kind ≤ length bytes.now }
    ensures { OnOk result (string_bytes text.new ≡ string_bytes text.old ++ number_text kind bytes.now) }
{
    match kind {
        0x0002 => push_signed(text, 1 << 15, u64::from(LittleEndian::read_u16(bytes))),
        0x0003 => push_signed(text, 1 << 31, u64::from(LittleEndian::read_u32(bytes))),
        0x0014 => push_signed(text, 1 << 63, LittleEndian::read_u64(bytes)),
        _ => write!(text, "{}", LittleEndian::read_u64(bytes)),
    }
}
