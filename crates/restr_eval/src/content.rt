//! Where one value stands in another.
ghost use Rattle.std.specs.Prelude.{◌≡◌};
ghost use Rattle.restr_eval.specs.Content.{begins, compared, contains, looked_at, matches, rest_of};
ghost use Rattle.restr_eval.specs.Orders.{units_in};

use crate::text::next_unit;
use mapi_values::tags::PTYP_STRING;
use restr_codec::{FuzzyFlags, FuzzyLevel};

/// Whether text begins with a part, as it is compared.
fn text_begins(flags: FuzzyFlags, pending: Option<u16>, text: &[u8], part: &[u8]) -> bool
    ensures { result ≡ begins (rest_of flags pending text.now) (compared flags (units_in part.now)) }
{
    let mut left = pending;
    let mut xs = text;
    let mut wanted = None;
    let mut ys = part;
    loop {
        let Some((y, next_wanted, next_ys)) = next_unit(flags, wanted, ys) else {
            return true;
        };
        let Some((x, next_left, next_xs)) = next_unit(flags, left, xs) else {
            return false;
        };
        if x != y {
            return false;
        }
        left = next_left;
        xs = next_xs;
        wanted = next_wanted;
        ys = next_ys;
    }
}

/// Whether a part stands somewhere in text, as it is compared.
fn text_contains(flags: FuzzyFlags, text: &[u8], part: &[u8]) -> bool
    ensures { result ≡ contains (compared flags (units_in text.now)) (compared flags (units_in part.now)) }
{
    let mut left = None;
    let mut xs = text;
    loop {
        if text_begins(flags, left, xs, part) {
            return true;
        }
        let Some((_, next_left, next_xs)) = next_unit(flags, left, xs) else {
            return false;
        };
        left = next_left;
        xs = next_xs;
    }
}

/// Whether bytes begin with others.
fn bytes_begin(bytes: &[u8], part: &[u8]) -> bool
    ensures { result ≡ begins bytes.now part.now }
{
    let mut xs = bytes;
    let mut ys = part;
    while let [y, next_ys @ ..] = ys {
        let [x, next_xs @ ..] = xs else {
            return false;
        };
        if *x != *y {
            return false;
        }
        xs = next_xs;
        ys = next_ys;
    }
    true
}

/// Whether bytes stand somewhere in others.
fn bytes_contain(bytes: &[u8], part: &[u8]) -> bool
    ensures { result ≡ contains bytes.now part.now }
{
    let mut rest = bytes;
    loop {
        if bytes_begin(rest, part) {
            return true;
        }
        let [_, behind @ ..] = rest else {
            return false;
        };
        rest = behind;
    }
}

/// Whether a part stands in a value of this kind as the level says. The flags are for text alone.
#[tactic(auto, unfolding(crate::specs::Content::looked_at))]
pub fn matches(level: FuzzyLevel, flags: FuzzyFlags, kind: u16, value: &[u8], part: &[u8]) -> bool
    ensures { result ≡ matches level (looked_at flags kind value.now) (looked_at flags kind part.now) }
{
    let text = kind == PTYP_STRING;
    match level {
        FuzzyLevel::FullString => {
            if text {
                text_begins(flags, None, value, part) && text_begins(flags, None, part, value)
            } else {
                bytes_begin(value, part) && bytes_begin(part, value)
            }
        }
        FuzzyLevel::Substring => {
            if text {
                text_contains(flags, value, part)
            } else {
                bytes_contain(value, part)
            }
        }
        FuzzyLevel::Prefix => {
            if text {
                text_begins(flags, None, value, part)
            } else {
                bytes_begin(value, part)
            }
        }
    }
}
