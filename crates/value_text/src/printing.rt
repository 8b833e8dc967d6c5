//! A value printed as text.
ghost use Rattle.std.specs.Prelude.{◌≡◌, ◌∷◌, [], ◌≤◌, ◌++◌, IfOk, OnOk, string_bytes};
ghost use Rattle.std.specs.Bool.{OnTrue};
ghost use Rattle.mapi_values.specs.Spelling.{quoted};
ghost use Rattle.value_text.specs.Forms.{is_whole_number, printed, value_text};
ghost use Rattle.value_text.specs.Numbers.{number_width};
ghost use Rattle.value_text.specs.Truths.{truth_text};
ghost use Rattle.value_text.specs.UnitBytes.{units_in};

use crate::hex::push_hex;
use crate::numbers::push_number;
use crate::unit_bytes::units_of_bytes;
use mapi_values::{Value, push_quoted};
use std::alloc::{AllocError, Global};

/// Whether a value of this kind and of so many bytes is a number.
#[tactic(auto, unfolding(crate::specs::Forms::is_whole_number, crate::specs::Numbers::number_width))]
fn is_whole_number(kind: u16, len: usize) -> bool
    ensures value { result ≡ is_whole_number kind len }
    ensures width { OnTrue result (number_width kind ≤ len) }
{
    match kind {
        0x0002 => len == 2,
        0x0003 => len == 4,
        0x0014 | 0x0040 => len == 8,
        _ => false,
    }
}

/// Puts `true` or `false` at the end of a text.
#[tactic(auto, unfolding(crate::specs::Truths::truth_text))]
fn push_truth(text: &mut String, byte: u8) -> Result<(), AllocError>
    ensures { OnOk result (string_bytes text.new ≡ string_bytes text.old ++ truth_text (byte ∷ [])) }
{
    if byte == 0 {
        text.push_str("false")
    } else {
        text.push_str("true")
    }
}

/// Puts the text that bytes hold at the end of a text, in quotes.
fn push_text(alloc: Global, text: &mut String, bytes: &[u8]) -> Result<(), AllocError>
    ensures { OnOk result (string_bytes text.new ≡ string_bytes text.old ++ quoted (units_in bytes.now)) }
{
    let units = units_of_bytes(alloc, bytes)?;
    push_quoted(text, &units)
}

/// Puts a value at the end of a text.
#[tactic(auto, unfolding(crate::specs::Forms::printed))]
fn push_value(alloc: Global, text: &mut String, kind: u16, bytes: &[u8]) -> Result<(), AllocError>
    ensures { OnOk result (string_bytes text.new ≡ string_bytes text.old ++ printed kind bytes.now) }
{
    if is_whole_number(kind, bytes.len()) {
        return push_number(text, kind, bytes);
    }
    if kind == 0x000B && bytes.len() == 1 {
        return push_truth(text, bytes[0]);
    }
    if kind == 0x001F && bytes.len() % 2 == 0 {
        return push_text(alloc, text, bytes);
    }
    push_hex(text, bytes)
}

/// The text of a value, as `parse_value` reads it, with text in quotes and hex in lower case. A value of a kind that can't be set, and one whose length isn't one of its kind, is printed in hex.
pub fn value_text(alloc: Global, value: &Value) -> Result<String, AllocError>
    ensures { IfOk result (λ text. string_bytes text ≡ value_text value.now) }
{
    let mut text = String::new(alloc);
    push_value(alloc, &mut text, value.kind(), value.bytes())?;
    Ok(text)
}
