//! The blocks of a subnode's data that stay where they are.
ghost use Rattle.std.specs.Prelude.{◌≡◌, []};

use pst_base::Bid;
use std::alloc::Global;
use std::marker::Model;

/// For each position of some data blocks the id of the block that is kept there, or none. Contracts see the list. Behind its end none is kept.
#[derive(Debug, Drop)]
pub struct Kept {
    bids: Vec<Option<Bid>>,
}

impl Model for Kept {
    ghost use Rattle.std.specs.Prelude.{List, Option};
    ghost use Rattle.pst_base.specs.declared.ids.Bid.{Bid};

    ghost Value = { List (Option Bid) };

    ghost view = { λ s. s.bids.items };
}

impl Kept {
    /// Nothing kept. Takes no memory.
    pub fn new(alloc: Global) -> Kept
        ensures { result ≡ [] }
    {
        Kept {
            bids: Vec::new(alloc),
        }
    }

    /// What a vector says, which it keeps.
    pub fn from_vec(bids: Vec<Option<Bid>>) -> Kept
        ensures { result ≡ bids.items }
    {
        Kept { bids }
    }

    /// The ids by their positions.
    pub fn as_slice(&self) -> &[Option<Bid>]
        ensures { result.now ≡ self.now }
    {
        self.bids.as_slice()
    }
}
