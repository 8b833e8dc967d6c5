//! The items of one block.
ghost use Rattle.std.specs.Prelude.{◌≡◌, ◌<◌, ◌^◌, [], ◌∷◌, ◌++◌, length, map, OnOk, OnErr};
ghost use Rattle.std.specs.List.{concat};

use std::alloc::{AllocError, Global};
use std::marker::Model;

/// Items one behind the other, and their sizes. Contracts see the list of items.
#[derive(Debug, Drop)]
pub struct Draft {
    bytes: Vec<u8>,
    sizes: Vec<u16>,
}

impl Model for Draft {
    ghost use Rattle.std.specs.Prelude.{ℕ, ◌≡◌, List, length, map};
    ghost use Rattle.std.specs.List.{concat};
    ghost use Rattle.heap_on_node.specs.Layout.{cut};

    ghost Value = { List (List ℕ) };

    ghost view = { λ d. cut d.sizes.items d.bytes.items };

    ghost invariant = { λ d. (concat (cut d.sizes.items d.bytes.items) ≡ d.bytes.items) × (map length (cut d.sizes.items d.bytes.items) ≡ d.sizes.items) };
}

impl Draft {
    /// No items. Takes no memory.
    pub fn new(alloc: Global) -> Draft
        ensures { result ≡ [] }
    {
        Draft {
            bytes: Vec::new(alloc),
            sizes: Vec::new(alloc),
        }
    }

    /// How many items there are.
    pub fn count(&self) -> usize
        ensures { result ≡ length self.now }
    {
        self.sizes.len()
    }

    /// How many bytes they have together.
    pub fn size(&self) -> usize
        ensures { result ≡ length (concat self.now) }
    {
        self.bytes.len()
    }

    /// The items one behind the other.
    pub fn bytes(&self) -> &[u8]
        ensures { result.now ≡ concat self.now }
    {
        self.bytes.as_slice()
    }

    /// The items' sizes.
    pub fn sizes(&self) -> &[u16]
        ensures { result.now ≡ map length self.now }
    {
        self.sizes.as_slice()
    }

    /// Puts one more item at the end. An `Err` changes nothing.
    pub fn push(&mut self, item: &[u8]) -> Result<(), AllocError>
        requires { length item.now < 2 ^ 16 }
        ensures ok { OnOk result (self.new ≡ self.old ++ item.now ∷ []) }
        ensures err { OnErr result (self.new ≡ self.old) }
    {
        let before = self.bytes.len();
        self.bytes.extend_from_slice(item)?;
        match self.sizes.push(item.len() as u16) {
            Ok(()) => Ok(()),
            Err(_) => {
                self.bytes.truncate(before);
                Err(AllocError)
            }
        }
    }
}
