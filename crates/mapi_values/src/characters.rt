//! UTF-16 units taken apart into characters, and characters put back as units.
ghost use Rattle.std.specs.Prelude.{◌≡◌, ◌<◌, ◌≤◌, [], ◌∷◌, ◌++◌, length, IfSome, MatchOption, OnOk, Option};
ghost use Rattle.std.specs.Char.Escape.{encode_utf16};
ghost use Rattle.mapi_values.specs.Characters.{pair_of, leading_pair, lone, characters, is_nonspacing, folded_character};

use std::alloc::AllocError;
use unicode::case::simple_fold;
use unicode::properties::GeneralCategory;

/// The first unit that begins a pair.
const FIRST_HIGH: u16 = 0xD800;
/// The first unit that ends a pair.
const FIRST_LOW: u16 = 0xDC00;
/// The first unit after those that end a pair.
const AFTER_LOW: u16 = 0xE000;
/// The first character that a pair spells.
const FIRST_PAIRED: u32 = 0x1_0000;

/// What stands at the front of a list of units.
#[derive(Clone, Copy, Debug, PartialEq, Eq)]
pub enum Character {
    /// One unit that is no surrogate, or a pair of surrogates.
    Scalar(char),
    /// A surrogate that has no partner.
    Unpaired(u16),
}

#[tactic(auto, unfolding(crate::specs::Characters::pair_of))]
fn pair_of(high: u16, low: u16) -> Option<char>
    ensures { result ≡ pair_of high low }
{
    let is_high = FIRST_HIGH <= high && high < FIRST_LOW;
    let is_low = FIRST_LOW <= low && low < AFTER_LOW;
    if is_high && is_low {
        let over = u32::from(high - FIRST_HIGH) * 0x400 + u32::from(low - FIRST_LOW);
        char::from_u32(FIRST_PAIRED + over)
    } else {
        None
    }
}

#[tactic(auto, unfolding(crate::specs::Characters::leading_pair))]
fn leading_pair(units: &[u16]) -> Option<char>
    ensures value { result ≡ leading_pair units.now }
    ensures long { IfSome result (λ _. 2 ≤ length units.now) }
{
    if units.len() < 2 {
        None
    } else {
        pair_of(units[0], units[1])
    }
}

#[tactic(auto, unfolding(crate::specs::Characters::lone))]
fn lone(unit: u16) -> Character
    ensures { result ≡ lone unit }
{
    match char::from_u32(u32::from(unit)) {
        Some(c) => Character::Scalar(c),
        None => Character::Unpaired(unit),
    }
}

/// The first character of units, and the units after it, or `None` where there are none.
pub fn split_character(units: &[u16]) -> Option<(Character, &[u16])>
    ensures split { MatchOption result (units.now ≡ []) (λ p. characters units.now ≡ p.0 ∷ characters p.1.now) }
    ensures shorter { MatchOption result (units.now ≡ []) (λ p. length p.1.now < length units.now) }
{
    if units.len() == 0 {
        return None;
    }
    match leading_pair(units) {
        Some(c) => Some((Character::Scalar(c), &units[2..])),
        None => Some((lone(units[0]), &units[1..])),
    }
}

/// Puts the units of a character at the end. An `Err` leaves a vector that is to be given up.
pub fn push_character(units: &mut Vec<u16>, character: char) -> Result<(), AllocError>
    ensures { OnOk result (units.new.items ≡ units.old.items ++ encode_utf16 character) }
{
    let mut buffer = [0u16; 2];
    units.extend_from_slice(character.encode_utf16(&mut buffer))
}

#[tactic(auto, unfolding(crate::specs::Characters::is_nonspacing))]
fn is_nonspacing(character: char) -> bool
    ensures { result ≡ is_nonspacing character }
{
    GeneralCategory::for_char(character) == GeneralCategory::NonspacingMark
}

/// Puts the units of a character's simple folding at the end, and no units for a nonspacing mark where these are to go. An unpaired surrogate stays. An `Err` leaves a vector that is to be given up.
#[tactic(auto, unfolding(crate::specs::Characters::folded_character))]
pub fn push_folded(
    units: &mut Vec<u16>,
    character: Character,
    strip: bool,
) -> Result<(), AllocError>
    ensures { OnOk result (units.new.items ≡ units.old.items ++ folded_character strip character) }
{
    match character {
        Character::Unpaired(unit) => {
            units.push(unit)?;
            Ok(())
        }
        Character::Scalar(c) => {
            if strip && is_nonspacing(c) {
                return Ok(());
            }
            push_character(units, simple_fold(c))
        }
    }
}
