//! Ids and places of new pages.
ghost use Rattle.std.specs.Prelude.{◌≡◌, ◌+◌, ◌<◌, ◌^◌, length};
ghost use Rattle.tree_edit.specs.Plans.{resolve};
ghost use Rattle.plan_pieces.specs.Names.{named};

use pst_base::{Bid, Bref, Place};
use tree_edit::Child;

/// The id and the place of the new page with a number, both 0 behind the last place.
#[tactic(auto, unfolding(crate::specs::Names::named))]
pub(crate) fn name_of(first: u64, places: &[Place], i: usize) -> Bref
    requires { first + length places.now < 2 ^ 64 }
    ensures { result ≡ named first places.now i }
{
    if i < places.len() {
        Bref {
            bid: Bid {
                bits: first + i as u64,
            },
            ib: places[i].ib,
        }
    } else {
        Bref {
            bid: Bid { bits: 0 },
            ib: 0,
        }
    }
}

/// Where a child of a plan stands, once its new pages have these ids, from `first` on, and these places.
pub fn resolve_child(first: u64, places: &[Place], child: Child) -> Bref
    requires { first + length places.now < 2 ^ 64 }
    ensures { result ≡ resolve (named first places.now) child }
{
    match child {
        Child::Old(at) => at,
        Child::New(i) => name_of(first, places, i),
    }
}
