//! Texts of ASCII characters, and values that hold them.
ghost use Rattle.std.specs.Prelude.{◌≡◌, ◌<◌, ◌^◌, ◌++◌, IfOk, codes, length};
ghost use Rattle.std.specs.Fmt.{decimal};
ghost use Rattle.bulk_maker.specs.Bulk.{text};

use mapi_values::tags::PTYP_STRING;
use mapi_values::{Tag, Units, Value};
use std::alloc::{AllocError, Global};
use std::fmt::Write;
use value_text::bytes_of_units;

/// The units of a text of ASCII characters.
pub(crate) fn units_of(alloc: Global, text: &[u8]) -> Result<Units, AllocError>
    ensures { IfOk result (λ units. units ≡ text.now) }
{
    let mut units = Vec::with_capacity(alloc, text.len())?;
    for byte in text {
        units.push(u16::from(*byte))?;
    }
    Ok(Units::from_vec(units))
}

/// A word of ASCII characters, and a number in decimal behind it.
pub(crate) fn numbered(alloc: Global, word: &str, number: u32) -> Result<Units, AllocError>
    ensures { IfOk result (λ units. units ≡ word.now ++ codes " " ++ decimal number) }
{
    let mut text = String::new(alloc);
    write!(text, "{word} {number}")?;
    units_of(alloc, text.as_bytes())
}

/// The value of this id that holds a text.
#[tactic(auto, using(crate::proofs::Lengths::text_fits))]
pub(crate) fn text_value(alloc: Global, id: u16, units: &Units) -> Result<Value, AllocError>
    requires { length units.now < 2 ^ 31 }
    ensures { IfOk result (λ value. value ≡ text id units.now) }
{
    let bytes = bytes_of_units(alloc, units)?;
    Ok(Value::new(
        Tag {
            id,
            kind: PTYP_STRING,
        },
        bytes,
    ))
}
