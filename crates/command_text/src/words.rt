//! The words of a line, and what stands in them.
ghost use Rattle.std.specs.Prelude.{◌≡◌, ◌≤◌, ◌<◌, true, false, Option, Some, None, Ok, Err, ok_or, option_map, MatchOption, length};
ghost use Rattle.std.specs.Str.{is_utf8};
ghost use Rattle.pst_base.specs.Stops.{Gives};
ghost use Rattle.value_text.specs.Hex.{hex_bytes};
ghost use Rattle.command_text.specs.declared.command.LineRefusal.{LineRefusal};
ghost use Rattle.command_text.specs.Words.{cut, hex_value, hex_number, id_of, tag_digits, tag_of, name_of, number_to, recipient_type, row_of, guid_of, ids_of, scope_of, restriction_of};

use crate::command::LineRefusal;
use crate::scope::Scope;
use mapi_values::{Tag, Units, parse_units};
use pst_base::{Bytes, MemOr, Nid};
use std::alloc::Global;
use value_text::{magnitude, read_hex};

/// The text that bytes are, if they are UTF-8.
pub fn as_text(line: &[u8]) -> Option<&str>
    ensures { MatchOption result (is_utf8 line.now ≡ false) (λ text. (text.now ≡ line.now) × (is_utf8 line.now ≡ true)) }
{
    match str::from_utf8(line) {
        Ok(text) => Some(text),
        Err(_) => None,
    }
}

/// What stands before and after the first space, if there is one.
#[tactic(auto, unfolding(crate::specs::Words::cut))]
pub fn cut(text: &str) -> Option<(&str, &str)>
    ensures { MatchOption result (cut text.now ≡ None) (λ parts. cut text.now ≡ Some (parts.0.now, parts.1.now)) }
{
    text.split_once(' ')
}

/// The number that at most 8 hex digits write.
fn hex_value(digits: &[u8]) -> Option<u32>
    requires { length digits.now ≤ 8 }
    ensures { result ≡ hex_value digits.now }
{
    let mut number = 0u32;
    for digit in digits {
        let Some(value) = char::from(*digit).to_digit(16) else {
            return None;
        };
        number = number * 16 + value;
    }
    Some(number)
}

/// The number that 1 to 8 hex digits write.
#[tactic(auto, unfolding(crate::specs::Words::hex_number))]
fn hex_number(digits: &[u8]) -> Option<u32>
    ensures { result ≡ hex_number digits.now }
{
    if 1 <= digits.len() && digits.len() <= 8 {
        hex_value(digits)
    } else {
        None
    }
}

/// The id that a word writes: `0x` and 1 to 8 hex digits.
pub fn read_id(word: &str) -> Option<Nid>
    ensures { option_map (λ nid. nid.bits) result ≡ id_of word.now }
{
    id_in(word.as_bytes())
}

/// The same of a word that may be no text.
#[tactic(auto, unfolding(crate::specs::Words::id_of))]
fn id_in(word: &[u8]) -> Option<Nid>
    ensures { option_map (λ nid. nid.bits) result ≡ id_of word.now }
{
    match word {
        [b'0', b'x', digits @ ..] => match hex_number(digits) {
            Some(bits) => Some(Nid { bits }),
            None => None,
        },
        _ => None,
    }
}

/// The tag that 8 hex digits write.
#[tactic(auto, unfolding(crate::specs::Words::tag_digits, crate::specs::Words::tag_from))]
fn tag_digits(digits: &[u8]) -> Option<Tag>
    ensures { result ≡ tag_digits digits.now }
{
    if digits.len() != 8 {
        return None;
    }
    match hex_value(digits) {
        Some(bits) => Some(Tag {
            id: (bits / 65536) as u16,
            kind: (bits % 65536) as u16,
        }),
        None => None,
    }
}

/// The tag that a word writes: `0x` and 8 hex digits, those of the id and then those of the kind.
#[tactic(auto, unfolding(crate::specs::Words::tag_of))]
pub fn read_tag(word: &str) -> Option<Tag>
    ensures { result ≡ tag_of word.now }
{
    match word.as_bytes() {
        [b'0', b'x', digits @ ..] => tag_digits(digits),
        _ => None,
    }
}

/// The number that decimal digits write, if it is at most the last one.
#[tactic(auto, unfolding(crate::specs::Words::number_to))]
fn number_to(last: u32, word: &str) -> Option<u32>
    ensures { result ≡ number_to last word.now }
{
    match magnitude(word) {
        Some(number) => {
            if number <= u64::from(last) {
                Some(number as u32)
            } else {
                None
            }
        }
        None => None,
    }
}

/// The type of a recipient ([MS-OXCMSG] 2.2.3.1.2) that a word writes in decimal, a number up to 3.
#[tactic(auto, unfolding(crate::specs::Words::recipient_type))]
pub fn read_recipient_type(word: &str) -> Option<u32>
    ensures { result ≡ recipient_type word.now }
{
    number_to(3, word)
}

/// The row of a table that a word writes in decimal, a number below 2^32.
#[tactic(auto, unfolding(crate::specs::Words::row_of))]
pub fn read_row(word: &str) -> Option<u32>
    ensures { result ≡ row_of word.now }
{
    number_to(u32::MAX, word)
}

/// The bytes that a word writes in hex: `-` for none, else one or more pairs of digits.
pub fn read_data(alloc: Global, word: &str) -> Result<Bytes, MemOr<LineRefusal>>
    ensures { Gives (λ bytes. bytes) result (ok_or (hex_bytes word.now) LineRefusal.Line) }
{
    match read_hex(alloc, word.as_bytes()) {
        Ok(bytes) => Ok(bytes),
        Err(MemOr::Refused(_)) => Err(MemOr::Refused(LineRefusal::Line)),
        Err(MemOr::Memory) => Err(MemOr::Memory),
    }
}

/// The 16 bytes of a GUID, which a word writes in 32 hex digits in their order.
#[tactic(auto, unfolding(crate::specs::Words::guid_of, value_text::specs::Forms::guid_bytes))]
pub fn read_guid(alloc: Global, word: &str) -> Result<[u8; 16], MemOr<LineRefusal>>
    ensures { Gives (λ guid. guid) result (ok_or (guid_of word.now) LineRefusal.Line) }
{
    let bytes = match read_hex(alloc, word.as_bytes()) {
        Ok(bytes) => bytes,
        Err(MemOr::Refused(_)) => return Err(MemOr::Refused(LineRefusal::Line)),
        Err(MemOr::Memory) => return Err(MemOr::Memory),
    };
    match <[u8; 16]>::try_from(bytes.as_slice()) {
        Ok(guid) => Ok(guid),
        Err(_) => Err(MemOr::Refused(LineRefusal::Line)),
    }
}

/// The units of a name: a text with good escapes, of 1 to 255 units.
#[tactic(auto, unfolding(crate::specs::Words::name_of))]
pub fn read_name(alloc: Global, text: &str) -> Result<Units, MemOr<LineRefusal>>
    ensures { Gives (λ units. units) result (ok_or (name_of text.now) LineRefusal.Value) }
{
    match parse_units(alloc, text) {
        Ok(units) => {
            if 1 <= units.len() && units.len() <= 255 {
                Ok(units)
            } else {
                Err(MemOr::Refused(LineRefusal::Value))
            }
        }
        Err(MemOr::Refused(_)) => Err(MemOr::Refused(LineRefusal::Value)),
        Err(MemOr::Memory) => Err(MemOr::Memory),
    }
}

/// The ids that a word writes with commas between them, one or more.
#[tactic(auto, unfolding(crate::specs::Words::ids_of))]
fn read_ids(alloc: Global, word: &str) -> Result<Scope, MemOr<LineRefusal>>
    ensures { Gives (λ ids. ids) result (ok_or (ids_of word.now) LineRefusal.Line) }
{
    let mut ids = Vec::new(alloc);
    for piece in word.as_bytes().split(|byte| *byte == b',') {
        match id_in(piece) {
            Some(id) => ids.push(id)?,
            None => return Err(MemOr::Refused(LineRefusal::Line)),
        }
    }
    Ok(Scope::from_vec(ids))
}

/// The folders that a word gives, or nothing for a `-`.
#[tactic(auto, unfolding(crate::specs::Words::scope_of, crate::specs::Words::unless_minus))]
pub fn read_scope(alloc: Global, word: &str) -> Result<Option<Scope>, MemOr<LineRefusal>>
    ensures { Gives (λ scope. scope) result (ok_or (scope_of word.now) LineRefusal.Line) }
{
    if word == "-" {
        return Ok(None);
    }
    Ok(Some(read_ids(alloc, word)?))
}

/// The bytes of a restriction that a word gives in hex, or nothing for a `-`.
#[tactic(auto, unfolding(crate::specs::Words::restriction_of, crate::specs::Words::unless_minus))]
pub fn read_restriction(alloc: Global, word: &str) -> Result<Option<Bytes>, MemOr<LineRefusal>>
    ensures { Gives (λ bytes. bytes) result (ok_or (restriction_of word.now) LineRefusal.Line) }
{
    if word == "-" {
        return Ok(None);
    }
    Ok(Some(read_data(alloc, word)?))
}
