//! How values of one kind stand to one another.
ghost use Rattle.std.specs.Prelude.{◌≡◌, ◌<◌, length, true};
ghost use Rattle.std.specs.Ordering.{nat_cmp};
ghost use Rattle.std.specs.Cmp.Lexicographic.{slice_cmp};
ghost use Rattle.restr_codec.specs.Kinds.{has_width, value_width};
ghost use Rattle.restr_eval.specs.Orders.{fixed_width, is_true, order, stands, units_in};

use crate::text::first_unit;
use mapi_values::tags::{
    PTYP_BOOLEAN, PTYP_GUID, PTYP_INTEGER_16, PTYP_INTEGER_32, PTYP_INTEGER_64, PTYP_STRING,
    PTYP_TIME,
};
use pst_base::{u16_at, u32_at, u64_at};
use restr_codec::Relation;
use std::cmp::Ordering;

/// Whether what is ordered so stands in the relation.
pub fn stands(relation: Relation, order: Ordering) -> bool
    ensures { result ≡ stands relation order }
{
    match relation {
        Relation::Less => order == Ordering::Less,
        Relation::AtMost => order != Ordering::Greater,
        Relation::Greater => order == Ordering::Greater,
        Relation::AtLeast => order != Ordering::Less,
        Relation::Equal => order == Ordering::Equal,
        Relation::NotEqual => order != Ordering::Equal,
    }
}

/// How many bytes each value of a kind has, where they are always as many.
#[tactic(auto, unfolding(crate::specs::Orders::fixed_width))]
pub fn fixed_width(kind: u16) -> Option<usize>
    ensures { result ≡ fixed_width kind }
{
    match kind {
        PTYP_GUID => Some(16),
        _ => mapi_values::fixed_width(kind),
    }
}

/// Whether a truth value is true.
fn is_true(bytes: &[u8]) -> bool
    requires { 0 < length bytes.now }
    ensures { result ≡ is_true bytes.now }
{
    bytes[0] != 0
}

/// How one value of a kind is ordered to another, each as long as its kind says: numbers by size, of which all but times are signed, false below true, text by UTF-16 units, and others by bytes.
#[tactic(auto, unfolding(crate::specs::Orders::ranks, restr_codec::specs::Kinds::value_width))]
pub fn order(kind: u16, a: &[u8], b: &[u8]) -> Ordering
    requires a { has_width (value_width kind) (length a.now) ≡ true }
    requires b { has_width (value_width kind) (length b.now) ≡ true }
    ensures { result ≡ order kind a.now b.now }
{
    match kind {
        PTYP_INTEGER_16 => u16_at(a, 0)
            .wrapping_add(0x8000)
            .cmp(&u16_at(b, 0).wrapping_add(0x8000)),
        PTYP_INTEGER_32 => u32_at(a, 0)
            .wrapping_add(0x8000_0000)
            .cmp(&u32_at(b, 0).wrapping_add(0x8000_0000)),
        PTYP_INTEGER_64 => u64_at(a, 0)
            .wrapping_add(0x8000_0000_0000_0000)
            .cmp(&u64_at(b, 0).wrapping_add(0x8000_0000_0000_0000)),
        PTYP_TIME => u64_at(a, 0).cmp(&u64_at(b, 0)),
        PTYP_BOOLEAN => u8::from(is_true(a)).cmp(&u8::from(is_true(b))),
        PTYP_STRING => order_of_text(a, b),
        _ => a.cmp(b),
    }
}

/// How text is ordered, by its UTF-16 units.
fn order_of_text(a: &[u8], b: &[u8]) -> Ordering
    ensures { result ≡ slice_cmp nat_cmp (units_in a.now) (units_in b.now) }
{
    let mut xs = a;
    let mut ys = b;
    loop {
        let Some((x, more)) = first_unit(xs) else {
            return if first_unit(ys).is_some() {
                Ordering::Less
            } else {
                Ordering::Equal
            };
        };
        let Some((y, others)) = first_unit(ys) else {
            return Ordering::Greater;
        };
        if x != y {
            return x.cmp(&y);
        }
        xs = more;
        ys = others;
    }
}
