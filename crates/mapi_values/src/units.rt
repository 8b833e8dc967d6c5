//! A text as UTF-16 units.
ghost use Rattle.std.specs.Prelude.{◌≡◌, [], ◌↔◌, length, IfOk, IsTrue};
ghost use Rattle.mapi_values.specs.Characters.{folded};

use crate::characters::{push_folded, split_character};
use std::alloc::{AllocError, Global};
use std::marker::Model;

/// A text as a list of UTF-16 units, in which surrogates may stand without a partner. Contracts see a list of numbers below 2^16.
#[derive(Debug, Drop)]
pub struct Units {
    units: Vec<u16>,
}

impl Model for Units {
    ghost use Rattle.std.specs.Prelude.{◌≡◌, ℕ, List, IsTrue};

    ghost Value = { List ℕ };

    ghost use Rattle.mapi_values.specs.Range.{all_units};

    ghost view = { λ u. u.units.items };

    ghost invariant = { λ u. IsTrue (all_units u.units.items) };
}

impl Units {
    ghost use Rattle.mapi_values.specs.Range.{all_units};

    /// The units of a vector, which it keeps.
    pub fn from_vec(units: Vec<u16>) -> Units
        ensures { result ≡ units.items }
    {
        Units { units }
    }

    /// The vector that keeps the units.
    pub fn into_vec(self) -> Vec<u16>
        ensures { result.items ≡ self }
    {
        self.units
    }

    /// The units.
    pub fn as_slice(&self) -> &[u16]
        ensures value { result.now ≡ self.now }
        ensures len { length result.now ≡ length self.now }
        ensures range { IsTrue (all_units self.now) }
    {
        self.units.as_slice()
    }

    /// How many units there are.
    pub fn len(&self) -> usize
        ensures { result ≡ length self.now }
    {
        self.units.len()
    }

    /// Whether there are none.
    pub fn is_empty(&self) -> bool
        ensures { IsTrue result ↔ (self.now ≡ []) }
    {
        self.units.len() == 0
    }

    /// The same units again.
    pub fn copy(&self, alloc: Global) -> Result<Units, AllocError>
        ensures { IfOk result (λ u. u ≡ self.now) }
    {
        Ok(Units {
            units: Vec::from_slice(alloc, self.units.as_slice())?,
        })
    }

    /// The simple case folding of the units, character by character, where a pair of surrogates is one character and an unpaired surrogate stays. `strip` first drops the characters of category Mn.
    pub fn fold(&self, alloc: Global, strip: bool) -> Result<Units, AllocError>
        ensures { IfOk result (λ u. u ≡ folded strip self.now) }
    {
        let mut units = Vec::with_capacity(alloc, self.units.len())?;
        let mut rest = self.units.as_slice();
        while let Some((character, after)) = split_character(rest) {
            push_folded(&mut units, character, strip)?;
            rest = after;
        }
        Ok(Units::from_vec(units))
    }
}
