//! The values in restrictions.
ghost use Rattle.std.specs.Prelude.{◌≡◌, ◌+◌, ◌≤◌, IfOk, IfSome, length, true};
ghost use Rattle.restr_codec.specs.Kinds.{is_content_kind, is_sound, is_value_kind, value_width};
ghost use Rattle.restr_codec.specs.Reading.{Reads, Splits, binary_front, tagged, tagged_values, text_front, text_len, truth_front, value, value_front};

use crate::fields::{Read, Tags, read_tag, refuse};
use mapi_values::tags::{
    PTYP_BINARY, PTYP_BOOLEAN, PTYP_GUID, PTYP_INTEGER_16, PTYP_INTEGER_32, PTYP_INTEGER_64,
    PTYP_STRING, PTYP_TIME,
};
use mapi_values::{Tag, Value, fits};
use pst_base::Bytes;
use std::alloc::Global;

/// How many bytes each value of a kind has, where they are always as many and such values stand in restrictions.
#[tactic(auto, unfolding(crate::specs::Kinds::value_width))]
pub fn value_width(kind: u16) -> Option<usize>
    ensures { result ≡ value_width kind }
{
    match kind {
        PTYP_INTEGER_16 => Some(2),
        PTYP_INTEGER_32 => Some(4),
        PTYP_BOOLEAN => Some(1),
        PTYP_INTEGER_64 | PTYP_TIME => Some(8),
        PTYP_GUID => Some(16),
        _ => None,
    }
}

/// Whether values of this kind are text or bytes.
pub fn is_content_kind(kind: u16) -> bool
    ensures { result ≡ is_content_kind kind }
{
    kind == PTYP_STRING || kind == PTYP_BINARY
}

/// Whether values of this kind may stand in restrictions.
pub fn is_value_kind(kind: u16) -> bool
    ensures { result ≡ is_value_kind kind }
{
    is_content_kind(kind) || value_width(kind).is_some()
}

/// How many bytes come before a unit 0.
#[tactic(auto, using(crate::proofs::ReadLaws::longer_longer, crate::proofs::ReadLaws::longer_zero))]
fn text_len(bytes: &[u8]) -> Option<usize>
    ensures len { result ≡ text_len bytes.now }
    ensures within { IfSome result (λ len. len + 2 ≤ length bytes.now) }
{
    let mut len = 0;
    let mut rest = bytes;
    while let [low, high, behind @ ..] = rest {
        if *low == 0 && *high == 0 {
            return Some(len);
        }
        len += 2;
        rest = behind;
    }
    None
}

/// Text without its unit 0, and what stands behind that.
fn split_text(bytes: &[u8]) -> Option<(&[u8], &[u8])>
    ensures { Splits result (text_front bytes.now) }
{
    match text_len(bytes) {
        Some(len) => Some((&bytes[..len], &bytes[len + 2..])),
        None => None,
    }
}

/// Bytes whose number stands before them, and what stands behind them.
fn split_binary(bytes: &[u8]) -> Option<(&[u8], &[u8])>
    ensures { Splits result (binary_front bytes.now) }
{
    match bytes {
        [low, high, rest @ ..] => {
            rest.split_at_checked(usize::from(*low) + 256 * usize::from(*high))
        }
        _ => None,
    }
}

/// A truth value, and what stands behind it.
fn split_truth(bytes: &[u8]) -> Option<(&[u8], &[u8])>
    ensures { Splits result (truth_front bytes.now) }
{
    match bytes {
        [first, ..] => {
            if *first < 2 {
                bytes.split_at_checked(1)
            } else {
                None
            }
        }
        _ => None,
    }
}

/// The bytes of a value of this kind, and what stands behind it.
#[tactic(auto, unfolding(crate::specs::Reading::value_front))]
fn split_value(kind: u16, bytes: &[u8]) -> Option<(&[u8], &[u8])>
    ensures { Splits result (value_front kind bytes.now) }
{
    match kind {
        PTYP_STRING => split_text(bytes),
        PTYP_BINARY => split_binary(bytes),
        PTYP_BOOLEAN => split_truth(bytes),
        _ => match value_width(kind) {
            Some(width) => bytes.split_at_checked(width),
            None => None,
        },
    }
}

/// The value of this tag.
fn read_value(alloc: Global, tag: Tag, bytes: &[u8]) -> Read<'_, Value>
    ensures read { Reads (λ v. v) result (value tag bytes.now) }
    ensures sound { IfOk result (λ r. is_sound r.0 ≡ true) }
{
    match split_value(tag.kind, bytes) {
        Some((front, behind)) => {
            if fits(tag.kind, front.len()) {
                Ok((Value::new(tag, Bytes::from_slice(alloc, front)?), behind))
            } else {
                Err(refuse(bytes))
            }
        }
        None => Err(refuse(bytes)),
    }
}

/// A tag among these, and a value of its kind.
#[tactic(auto, using(crate::proofs::ReadLaws::stops, crate::proofs::ReadLaws::goes))]
pub fn read_tagged(alloc: Global, tags: Tags, bytes: &[u8]) -> Read<'_, Value>
    ensures read { Reads (λ v. v) result (tagged tags bytes.now) }
    ensures sound { IfOk result (λ r. is_sound r.0 ≡ true) }
{
    let (tag, behind) = read_tag(bytes, tags)?;
    read_value(alloc, tag, behind)
}

/// So many tags and values.
pub fn read_tagged_values(alloc: Global, count: u8, bytes: &[u8]) -> Read<'_, Vec<Value>>
    ensures { Reads (λ vs. vs.items) result (tagged_values count bytes.now) }
{
    let mut values = Vec::new(alloc);
    let mut rest = bytes;
    for _turn in 0..count {
        let (value, behind) = read_tagged(alloc, Tags::OfValues, rest)?;
        values.push(value)?;
        rest = behind;
    }
    Ok((values, rest))
}
