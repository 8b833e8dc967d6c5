//! Bytes as hex digits.
ghost use Rattle.std.specs.Prelude.{◌≡◌, ◌++◌, ◌<◌, [], OnOk, string_bytes, None, Some};
ghost use Rattle.std.specs.Char.{digit_char};
ghost use Rattle.std.specs.List.{flat_map};
ghost use Rattle.pst_base.specs.Stops.{Finds};
ghost use Rattle.value_text.specs.Hex.{byte_digits, hex_bytes, hex_pairs, hex_text, pair_value};

use crate::BadValue;
use pst_base::{Bytes, MemOr};
use std::alloc::{AllocError, Global};

/// The byte that two hex digits write.
#[tactic(auto, unfolding(crate::specs::Hex::pair_value))]
fn pair_value(high: u8, low: u8) -> Option<u8>
    ensures { result ≡ pair_value high low }
{
    let Some(high) = char::from(high).to_digit(16) else {
        return None;
    };
    let Some(low) = char::from(low).to_digit(16) else {
        return None;
    };
    Some((16 * high + low) as u8)
}

/// The bytes that pairs of hex digits write.
fn read_pairs(alloc: Global, digits: &[u8]) -> Result<Bytes, MemOr<BadValue>>
    ensures { Finds (λ bytes. bytes) result (hex_pairs digits.now) }
{
    let mut bytes = Vec::new(alloc);
    let mut rest = digits;
    while let [high, low, after @ ..] = rest {
        let Some(byte) = pair_value(*high, *low) else {
            return Err(MemOr::Refused(BadValue));
        };
        bytes.push(byte)?;
        rest = after;
    }
    if rest.is_empty() {
        Ok(Bytes::from_vec(bytes))
    } else {
        Err(MemOr::Refused(BadValue))
    }
}

/// The bytes of a word in hex: a lone `-` for none, else one or more pairs of hex digits of either case.
#[tactic(auto, unfolding(crate::specs::Hex::hex_bytes))]
pub fn read_hex(alloc: Global, word: &[u8]) -> Result<Bytes, MemOr<BadValue>>
    ensures { Finds (λ bytes. bytes) result (hex_bytes word.now) }
{
    match word {
        [] => Err(MemOr::Refused(BadValue)),
        [b'-'] => Ok(Bytes::new(alloc)),
        _ => read_pairs(alloc, word),
    }
}

/// The lower-case hex digit of a number below 16.
fn hex_digit(digit: u8) -> char
    requires { digit < 16 }
    ensures { result ≡ digit_char digit }
{
    char::from_digit(u32::from(digit), 16).unwrap()
}

/// Puts the hex digits of bytes at the end of a text.
fn push_digits(text: &mut String, bytes: &[u8]) -> Result<(), AllocError>
    ensures { OnOk result (string_bytes text.new ≡ string_bytes text.old ++ flat_map byte_digits bytes.now) }
{
    for byte in bytes {
        text.push(hex_digit(*byte / 16))?;
        text.push(hex_digit(*byte % 16))?;
    }
    Ok(())
}

/// Puts bytes in hex at the end of a text: a `-` for none, else two digits for each, in lower case.
#[tactic(auto, unfolding(crate::specs::Hex::hex_text))]
pub fn push_hex(text: &mut String, bytes: &[u8]) -> Result<(), AllocError>
    ensures { OnOk result (string_bytes text.new ≡ string_bytes text.old ++ hex_text bytes.now) }
{
    if bytes.is_empty() {
        text.push('-')
    } else {
        push_digits(text, bytes)
    }
}
