//! Units as text of one line: read with escapes, and printed in quotes.
ghost use Rattle.std.specs.Prelude.{◌≡◌, ℕ, ◌<◌, [], ◌++◌, Some, IsTrue, IsUtf8, List, IfSome, MatchOption, OnOk, chars, string_bytes, None};
ghost use Rattle.std.specs.Bool.{OnFalse};
ghost use Rattle.std.specs.Char.{digit_char};
ghost use Rattle.std.specs.Str.Iter.{chars_rest};
ghost use Rattle.pst_base.specs.Stops.{Finds};
ghost use Rattle.mapi_values.specs.Texts.{TakesFirst, TakesFront};
ghost use Rattle.mapi_values.specs.Range.{all_units};
ghost use Rattle.mapi_values.specs.Spelling.{units_of, leading_digit, leading_unit, leading_escape, is_plain, escape, spelled_character, spelled, quoted};

use crate::characters::{Character, push_character, split_character};
use crate::units::Units;
use pst_base::MemOr;
use std::alloc::{AllocError, Global};
use std::str::Chars;

/// A backslash in a text that isn't followed by `u` and four hex digits.
#[derive(Clone, Copy, Debug, PartialEq, Eq)]
pub struct BadEscape;

/// Takes the first character off a text, if there is one.
fn take_character(text: &mut Chars<'_>) -> Option<char>
    requires { IsUtf8 (chars_rest text.old) }
    ensures { MatchOption result (chars (chars_rest text.old) ≡ []) (λ c. TakesFirst (chars_rest text.old) c (chars_rest text.new)) }
{
    text.next()
}

/// Takes a hex digit off a text, if one stands at its front.
#[tactic(auto, unfolding(crate::specs::Spelling::leading_digit))]
fn take_digit(text: &mut Chars<'_>) -> Option<u16>
    requires { IsUtf8 (chars_rest text.old) }
    ensures digit { MatchOption result (leading_digit (chars (chars_rest text.old)) ≡ None) (λ d. TakesFront (leading_digit (chars (chars_rest text.old))) (chars_rest text.old) d (chars_rest text.new)) }
    ensures small { IfSome result (λ d. d < 16) }
{
    let Some(character) = take_character(text) else {
        return None;
    };
    let Some(digit) = character.to_digit(16) else {
        return None;
    };
    Some(digit as u16)
}

/// Takes four hex digits off a text, if they stand at its front.
#[tactic(auto, unfolding(crate::specs::Spelling::leading_unit))]
fn take_unit(text: &mut Chars<'_>) -> Option<u16>
    requires { IsUtf8 (chars_rest text.old) }
    ensures { MatchOption result (leading_unit (chars (chars_rest text.old)) ≡ None) (λ u. TakesFront (leading_unit (chars (chars_rest text.old))) (chars_rest text.old) u (chars_rest text.new)) }
{
    let Some(a) = take_digit(text) else {
        return None;
    };
    let Some(b) = take_digit(text) else {
        return None;
    };
    let Some(c) = take_digit(text) else {
        return None;
    };
    let Some(d) = take_digit(text) else {
        return None;
    };
    Some(4096 * a + 256 * b + 16 * c + d)
}

/// Takes the letter u and four hex digits off a text, if they stand at its front.
#[tactic(auto, unfolding(crate::specs::Spelling::leading_escape))]
fn take_escape(text: &mut Chars<'_>) -> Option<u16>
    requires { IsUtf8 (chars_rest text.old) }
    ensures { MatchOption result (leading_escape (chars (chars_rest text.old)) ≡ None) (λ u. TakesFront (leading_escape (chars (chars_rest text.old))) (chars_rest text.old) u (chars_rest text.new)) }
{
    let Some(letter) = take_character(text) else {
        return None;
    };
    if letter == 'u' { take_unit(text) } else { None }
}

/// The units of a text. `\u` and four hex digits are the unit that they write, in upper or lower case; the error says that another backslash stands in the text.
pub fn parse_units(alloc: Global, text: &str) -> Result<Units, MemOr<BadEscape>>
    ensures { Finds (λ u. u) result (units_of (chars text.now)) }
{
    let mut units = Vec::new(alloc);
    let mut rest = text.chars();
    while let Some(character) = take_character(&mut rest) {
        if character == '\\' {
            let Some(unit) = take_escape(&mut rest) else {
                return Err(MemOr::Refused(BadEscape));
            };
            units.push(unit)?;
        } else {
            push_character(&mut units, character)?;
        }
    }
    Ok(Units::from_vec(units))
}

/// The lower-case hex digit of a number below 16.
fn hex_digit(digit: u16) -> char
    requires { digit < 16 }
    ensures { result ≡ digit_char digit }
{
    char::from_digit(u32::from(digit), 16).unwrap()
}

/// Puts the escape of a unit at the end of a text.
#[tactic(auto, unfolding(crate::specs::Spelling::escape))]
fn push_escape(text: &mut String, unit: u16) -> Result<(), AllocError>
    ensures { OnOk result (string_bytes text.new ≡ string_bytes text.old ++ escape unit) }
{
    text.push_str("\\u")?;
    text.push(hex_digit(unit / 4096 % 16))?;
    text.push(hex_digit(unit / 256 % 16))?;
    text.push(hex_digit(unit / 16 % 16))?;
    text.push(hex_digit(unit % 16))
}

/// Whether a character is printed as it is.
#[tactic(auto, unfolding(crate::specs::Spelling::is_plain))]
fn is_plain(character: char) -> bool
    ensures value { result ≡ is_plain character }
    ensures escaped_is_ascii { OnFalse result (character < 128) }
{
    !(character < ' ' || character == '\x7F' || character == '"' || character == '\\')
}

/// Puts a character at the end of a text, escaped where it isn't printed as it is.
#[tactic(auto, unfolding(crate::specs::Spelling::spelled_character))]
fn push_spelled(text: &mut String, character: Character) -> Result<(), AllocError>
    ensures { OnOk result (string_bytes text.new ≡ string_bytes text.old ++ spelled_character character) }
{
    match character {
        Character::Unpaired(unit) => push_escape(text, unit),
        Character::Scalar(c) => {
            if is_plain(c) {
                text.push(c)
            } else {
                push_escape(text, c as u16)
            }
        }
    }
}

/// Puts units in double quotes at the end of a text. Those below 20h, 7Fh, the double quote, the backslash and unpaired surrogates are escaped, in lower-case hex. An `Err` leaves a text that is to be given up.
pub fn push_quoted(text: &mut String, units: &Units) -> Result<(), AllocError>
    ensures { OnOk result (string_bytes text.new ≡ string_bytes text.old ++ quoted units.now) }
{
    text.push('"')?;
    let mut rest = units.as_slice();
    while let Some((character, after)) = split_character(rest) {
        push_spelled(text, character)?;
        rest = after;
    }
    text.push('"')?;
    Ok(())
}

/// What is printed of units, without its quotes, reads as the same units.
pub fn printed_reads_back()
    ensures { (us : List ℕ) → IsTrue (all_units us) → units_of (chars (spelled us)) ≡ Some us }
{}
