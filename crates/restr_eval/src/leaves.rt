//! The restrictions within which no other one stands. Each needs its property, in its kind and with the length of the kind.
ghost use Rattle.std.specs.Prelude.{◌≡◌, true};
ghost use Rattle.restr_codec.specs.Kinds.{is_sound};
ghost use Rattle.restr_codec.specs.Restr.{bit_mask, compare, content, property, size_of};
ghost use Rattle.restr_eval.specs.Eval.{alone, eval, passes};

use crate::content::matches;
use crate::orders::{order, stands};
use crate::values::good_of;
use mapi_values::tags::PTYP_INTEGER_32;
use mapi_values::{Props, Tag, Value};
use pst_base::u32_at;
use restr_codec::{BitTest, FuzzyFlags, FuzzyLevel, Relation};

/// Whether a value stands in the property's.
pub fn content_stands(level: FuzzyLevel, flags: FuzzyFlags, value: &Value, props: &Props) -> bool
    ensures { result ≡ eval (content level flags value.now) (alone props.now) }
{
    match good_of(value.tag(), props) {
        Some(own) => matches(level, flags, value.kind(), own.bytes(), value.bytes()),
        None => false,
    }
}

/// Whether the property's value stands in the relation to a value.
pub fn property_stands(relation: Relation, value: &Value, props: &Props) -> bool
    requires { is_sound value.now ≡ true }
    ensures { result ≡ eval (property relation value.now) (alone props.now) }
{
    match good_of(value.tag(), props) {
        Some(own) => stands(relation, order(value.kind(), own.bytes(), value.bytes())),
        None => false,
    }
}

/// Whether the left property's value stands in the relation to the right one's.
pub fn pair_stands(relation: Relation, left: Tag, right: Tag, props: &Props) -> bool
    ensures { result ≡ eval (compare relation left right) (alone props.now) }
{
    if left.kind != right.kind {
        return false;
    }
    match good_of(left, props) {
        Some(first) => match good_of(right, props) {
            Some(second) => stands(relation, order(left.kind, first.bytes(), second.bytes())),
            None => false,
        },
        None => false,
    }
}

fn passes(test: BitTest, bits: u32) -> bool
    ensures { result ≡ passes test bits }
{
    match test {
        BitTest::Zero => bits == 0,
        BitTest::NotZero => bits != 0,
    }
}

/// Whether the bits of the property's value under a mask pass a test.
#[tactic(auto, using(crate::proofs::WidthLaws::four_bytes))]
pub fn bits_pass(test: BitTest, tag: Tag, mask: u32, props: &Props) -> bool
    ensures { result ≡ eval (bit_mask test tag mask) (alone props.now) }
{
    if tag.kind != PTYP_INTEGER_32 {
        return false;
    }
    match good_of(tag, props) {
        Some(own) => passes(test, u32_at(own.bytes(), 0) & mask),
        None => false,
    }
}

/// Whether the number of bytes of the property's value stands in the relation to a size.
pub fn size_stands(relation: Relation, tag: Tag, size: u32, props: &Props) -> bool
    ensures { result ≡ eval (size_of relation tag size) (alone props.now) }
{
    match good_of(tag, props) {
        Some(own) => stands(relation, (own.len() as u64).cmp(&u64::from(size))),
        None => false,
    }
}
