//! Text as the units that are compared, one at a time, so that it takes no memory.
ghost use Rattle.std.specs.Prelude.{◌≡◌, ◌<◌, [], ◌∷◌, length, MatchOption, ⊤};
ghost use Rattle.mapi_values.specs.Characters.{characters, is_nonspacing};
ghost use Rattle.restr_eval.specs.Content.{ComparedUnits, NextUnit, compared_units, folded, rest_of};
ghost use Rattle.restr_eval.specs.Orders.{FirstUnit, units_in};

use mapi_values::{Character, split_character};
use restr_codec::FuzzyFlags;
use unicode::case::simple_fold;
use unicode::properties::GeneralCategory;

/// The unit that the first two bytes hold, and the bytes behind it.
pub fn first_unit(bytes: &[u8]) -> Option<(u16, &[u8])>
    ensures { FirstUnit bytes.now result }
{
    match bytes {
        [low, high, behind @ ..] => Some((u16::from(*low) + 256 * u16::from(*high), behind)),
        _ => None,
    }
}

/// The first character of the units that bytes hold, and the bytes behind it.
fn first_character(bytes: &[u8]) -> Option<(Character, &[u8])>
    ensures split { MatchOption result (units_in bytes.now ≡ []) (λ p. characters (units_in bytes.now) ≡ p.0 ∷ characters (units_in p.1.now)) }
    ensures shorter { MatchOption result ⊤ (λ p. length p.1.now < length bytes.now) }
{
    let Some((first, behind)) = first_unit(bytes) else {
        return None;
    };
    let Some((second, further)) = first_unit(behind) else {
        return match split_character(&[first]) {
            Some((character, _)) => Some((character, behind)),
            None => None,
        };
    };
    match split_character(&[first, second]) {
        Some((character, alone)) => {
            if alone.is_empty() {
                Some((character, further))
            } else {
                Some((character, behind))
            }
        }
        None => None,
    }
}

#[tactic(auto, unfolding(mapi_values::specs::Characters::is_nonspacing))]
fn is_nonspacing(character: char) -> bool
    ensures { result ≡ is_nonspacing character }
{
    GeneralCategory::for_char(character) == GeneralCategory::NonspacingMark
}

#[tactic(auto, unfolding(crate::specs::Content::folded))]
fn folded(flags: FuzzyFlags, character: char) -> char
    ensures { result ≡ folded flags character }
{
    if flags.ignore_case || flags.loose {
        simple_fold(character)
    } else {
        character
    }
}

/// The one or two units of a character as they are compared, or `None` where it is a mark that is ignored.
#[tactic(auto, unfolding(crate::specs::Content::compared_units))]
fn compared_units(flags: FuzzyFlags, character: Character) -> Option<(u16, Option<u16>)>
    ensures { ComparedUnits (compared_units flags character) result }
{
    match character {
        Character::Unpaired(unit) => Some((unit, None)),
        Character::Scalar(c) => {
            if flags.ignore_nonspace && is_nonspacing(c) {
                return None;
            }
            let mut buffer = [0u16; 2];
            match folded(flags, c).encode_utf16(&mut buffer) {
                [unit] => Some((*unit, None)),
                [high, low] => Some((*high, Some(*low))),
                _ => None,
            }
        }
    }
}

/// The first unit that is compared of one that was left over and of text, and what is left of both then.
pub fn next_unit(
    flags: FuzzyFlags,
    pending: Option<u16>,
    text: &[u8],
) -> Option<(u16, Option<u16>, &[u8])>
    ensures { NextUnit flags (rest_of flags pending text.now) result }
{
    if let Some(unit) = pending {
        return Some((unit, None, text));
    }
    let mut rest = text;
    while let Some((character, behind)) = first_character(rest) {
        if let Some((unit, pending)) = compared_units(flags, character) {
            return Some((unit, pending, behind));
        }
        rest = behind;
    }
    None
}
