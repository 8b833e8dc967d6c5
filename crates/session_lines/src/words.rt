//! The number of a pin or a view, and the direction of a view.
ghost use Rattle.std.specs.Prelude.{◌≡◌, Some, None, option_map, option_copied};
ghost use Rattle.std.specs.Char.{is_ascii_digit};
ghost use Rattle.std.specs.List.{list_all};
ghost use Rattle.session_lines.specs.Lines.{before_end, direction_of, number_of};

use sorted_views::Direction;
use value_text::magnitude;

/// Whether a text has no other bytes than digits.
fn all_digits(text: &str) -> bool
    ensures { result ≡ list_all is_ascii_digit text.now }
{
    text.as_bytes().iter().all(|byte| byte.is_ascii_digit())
}

/// The number of a pin or a view that a word writes in decimal, from 1 on. `Some(None)` is a number of more than 32 bits, however long, which none has.
#[tactic(auto, unfolding(crate::specs::Lines::number_of, value_text::specs::Numbers::magnitude))]
pub fn read_number(word: &str) -> Option<Option<u32>>
    ensures { result ≡ number_of word.now }
{
    if word.is_empty() || !all_digits(word) {
        return None;
    }
    match magnitude(word) {
        Some(0) => None,
        Some(number) => Some(u32::try_from(number).ok()),
        None => Some(None),
    }
}

/// What stands before this end, if the bytes end so.
fn before_end<'a>(bytes: &'a [u8], end: &[u8]) -> Option<&'a [u8]>
    ensures { option_map (λ front. front.now) result ≡ before_end end.now bytes.now }
{
    bytes.strip_suffix(end)
}

/// The direction that the last word says, and what stands before that.
#[tactic(auto, unfolding(crate::specs::Lines::direction_of))]
pub fn read_direction(rest: &str) -> Option<(&[u8], Direction)>
    ensures { option_map (λ said. (said.0.now, said.1)) result ≡ direction_of rest.now }
{
    if let Some(front) = before_end(rest.as_bytes(), b" up") {
        return Some((front, Direction::Up));
    }
    match before_end(rest.as_bytes(), b" down") {
        Some(front) => Some((front, Direction::Down)),
        None => None,
    }
}
