//! The value that a leaf asks for.
ghost use Rattle.std.specs.Prelude.{◌≡◌, IfSome, length, option_copied, true};
ghost use Rattle.restr_codec.specs.Kinds.{has_width, value_width};
ghost use Rattle.restr_eval.specs.Orders.{fixed_width};
ghost use Rattle.restr_eval.specs.Eval.{any_of, good_of};

use crate::orders::fixed_width;
use mapi_values::{Props, Tag, Value};

/// The value of this id and kind, whatever its length.
pub fn any_of(tag: Tag, props: &Props) -> Option<&Value>
    ensures { option_copied result ≡ any_of tag.id tag.kind props.now }
{
    match props.get(tag.id) {
        Some(value) => {
            if value.kind() == tag.kind {
                Some(value)
            } else {
                None
            }
        }
        None => None,
    }
}

/// The same, of the length that its kind has.
#[tactic(auto, using(crate::proofs::WidthLaws::narrower))]
pub fn good_of(tag: Tag, props: &Props) -> Option<&Value>
    ensures value { option_copied result ≡ good_of tag.id tag.kind props.now }
    ensures width { IfSome result (λ v. has_width (fixed_width tag.kind) (length v.now.bytes) ≡ true) }
    ensures sound { IfSome result (λ v. has_width (value_width tag.kind) (length v.now.bytes) ≡ true) }
{
    match any_of(tag, props) {
        Some(value) => match fixed_width(value.kind()) {
            Some(width) => {
                if value.len() == width {
                    Some(value)
                } else {
                    None
                }
            }
            None => Some(value),
        },
        None => None,
    }
}
