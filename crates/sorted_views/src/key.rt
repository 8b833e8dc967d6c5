//! The key of a cell.
ghost use Rattle.std.specs.Prelude.{◌≡◌, ◌<◌, true, length, None, IfOk};
ghost use Rattle.restr_codec.specs.Kinds.{has_width, value_width};
ghost use Rattle.restr_eval.specs.Orders.{is_true};
ghost use Rattle.sorted_views.specs.Keys.{IsKeyOf, has_keys, number_of, units_of};

use mapi_values::Value;
use mapi_values::tags::{
    PTYP_BINARY, PTYP_BOOLEAN, PTYP_GUID, PTYP_INTEGER_16, PTYP_INTEGER_32, PTYP_INTEGER_64,
    PTYP_STRING, PTYP_TIME,
};
use pst_base::{u16_at, u32_at, u64_at};
use std::alloc::{AllocError, Global};
use value_text::units_of_bytes;

/// What a cell is sorted and grouped by: a number, or units. Keys are compared with those of the same column, which all have the one or the other.
#[derive(Debug, PartialEq, Eq, PartialOrd, Ord, Drop)]
pub struct Key {
    /// A number, shifted where it is signed; 0 of a text and of data.
    pub number: u64,
    /// The UTF-16 units of a text after simple folding, or the bytes of data; none of a number.
    pub units: Vec<u16>,
}

/// Whether a column of this kind has keys.
#[tactic(auto, unfolding(crate::specs::Keys::has_keys))]
pub(crate) fn has_keys(kind: u16) -> bool
    ensures { result ≡ has_keys kind }
{
    matches!(
        kind,
        PTYP_INTEGER_16
            | PTYP_INTEGER_32
            | PTYP_BOOLEAN
            | PTYP_INTEGER_64
            | PTYP_TIME
            | PTYP_GUID
            | PTYP_STRING
            | PTYP_BINARY
    )
}

/// Whether a truth value is true.
fn is_true(bytes: &[u8]) -> bool
    requires { 0 < length bytes.now }
    ensures { result ≡ is_true bytes.now }
{
    bytes[0] != 0
}

/// The number of a value of this kind, if it has one.
#[tactic(auto, unfolding(crate::specs::Keys::number_of, restr_codec::specs::Kinds::value_width))]
fn number_of(kind: u16, bytes: &[u8]) -> Option<u64>
    requires width { has_width (value_width kind) (length bytes.now) ≡ true }
    ensures { result ≡ number_of kind bytes.now }
{
    match kind {
        PTYP_INTEGER_16 => Some(u64::from(u16_at(bytes, 0).wrapping_add(0x8000))),
        PTYP_INTEGER_32 => Some(u64::from(u32_at(bytes, 0).wrapping_add(0x8000_0000))),
        PTYP_INTEGER_64 => Some(u64_at(bytes, 0).wrapping_add(0x8000_0000_0000_0000)),
        PTYP_TIME => Some(u64_at(bytes, 0)),
        PTYP_BOOLEAN => Some(u64::from(is_true(bytes))),
        _ => None,
    }
}

/// Each byte as a unit.
fn bytes_as_units(alloc: Global, bytes: &[u8]) -> Result<Vec<u16>, AllocError>
    ensures { IfOk result (λ units. units.items ≡ bytes.now) }
{
    bytes.iter().map(|byte| u16::from(*byte)).collect(alloc)
}

/// The units of a value of this kind that has no number.
#[tactic(auto, unfolding(crate::specs::Keys::units_of))]
fn units_of(alloc: Global, kind: u16, bytes: &[u8]) -> Result<Vec<u16>, AllocError>
    requires none { number_of kind bytes.now ≡ None }
    ensures { IfOk result (λ units. units.items ≡ units_of kind bytes.now) }
{
    if kind == PTYP_STRING {
        let units = units_of_bytes(alloc, bytes)?;
        Ok(units.fold(alloc, false)?.into_vec())
    } else {
        bytes_as_units(alloc, bytes)
    }
}

/// The key of a value.
#[tactic(auto, unfolding(crate::specs::Keys::units_of))]
pub(crate) fn key_of(alloc: Global, value: &Value) -> Result<Key, AllocError>
    requires width { has_width (value_width value.now.kind) (length value.now.bytes) ≡ true }
    ensures { IfOk result (IsKeyOf value.now) }
{
    match number_of(value.kind(), value.bytes()) {
        Some(number) => Ok(Key {
            number,
            units: Vec::new(alloc),
        }),
        None => Ok(Key {
            number: 0,
            units: units_of(alloc, value.kind(), value.bytes())?,
        }),
    }
}
