//! For each region of a file an upper bound on its longest run of free slots.
ghost use Rattle.std.specs.Prelude.{◌≡◌, ◌<◌, ◌≤◌, ◌*◌, ◌+◌, ℕ, length, replicate, slice_set, slice_index, IfOk, IfSome, IfNone};
ghost use Rattle.alloc_map.specs.Bounds.{IsFirstAtLeast, Raises};

use crate::bits::copy_over;
use std::alloc::{AllocError, Global};
use std::marker::Model;

/// A run of free slots is never asked to be longer, so this bound says nothing of a region.
const LONGEST: u8 = 128;

/// How many regions make a group.
const GROUP: usize = 64;

/// A number from 0 to 128 for each region. Contracts see the list. So that a search needn't look at each, `tops` has for each 64 of them a number that none of them exceeds.
#[derive(Debug, Drop)]
pub(crate) struct Bounds {
    items: Vec<u8>,
    tops: Vec<u8>,
}

impl Model for Bounds {
    ghost use Rattle.std.specs.Prelude.{ℕ, List};
    ghost use Rattle.alloc_map.specs.Bounds.{AreTops};

    ghost Value = { List ℕ };

    ghost view = { λ b. b.items.items };

    ghost invariant = { λ b. AreTops b.items.items b.tops.items };
}

impl Bounds {
    /// The bound that says nothing, for each of a number of regions.
    pub(crate) fn new(alloc: Global, regions: usize) -> Result<Bounds, AllocError>
        requires { regions ≤ 8192 }
        ensures { IfOk result (λ b. b ≡ replicate regions 128) }
    {
        Ok(Bounds {
            items: filled(alloc, regions)?,
            tops: filled(alloc, regions / GROUP + 1)?,
        })
    }

    /// How many regions there are.
    pub(crate) fn len(&self) -> usize
        ensures { result ≡ length self.now }
    {
        self.items.len()
    }

    /// Lowers the bound of a region.
    pub(crate) fn lower(&mut self, region: usize, to: u8)
        requires within { region < length self.old }
        requires less { to < slice_index self.old region }
        ensures { self.new ≡ slice_set self.old region to }
    {
        self.items[region] = to;
    }

    /// Forgets the bounds of the regions from one on and below another.
    pub(crate) fn raise(&mut self, from: usize, to: usize)
        requires ordered { from ≤ to }
        requires within { to ≤ length self.old }
        ensures { Raises self.old self.new from to }
    {
        for region in from..to {
            self.items[region] = LONGEST;
            self.tops[region / GROUP] = LONGEST;
        }
    }

    /// The first region whose bound is at least n.
    pub(crate) fn first_at_least(&mut self, n: u8) -> Option<usize>
        requires { 1 ≤ n }
        ensures same { self.new ≡ self.old }
        ensures some { IfSome result (IsFirstAtLeast self.old n) }
        ensures none { IfNone result ((r : ℕ) → r < length self.old → slice_index self.old r < n) }
    {
        for group in 0..self.tops.len() {
            if self.tops[group] >= n {
                if let Some(region) = first_of_group(self.items.as_slice(), group, n) {
                    return Some(region);
                }
                self.tops[group] = n - 1;
            }
        }
        None
    }

    /// Takes the bounds of another list, which has as many.
    pub(crate) fn assign(&mut self, other: &Bounds)
        requires { length self.old ≡ length other.now }
        ensures { self.new ≡ other.now }
    {
        copy_over(&mut self.items, &other.items);
        copy_over(&mut self.tops, &other.tops);
    }

    /// The same bounds again.
    pub(crate) fn copy(&self, alloc: Global) -> Result<Bounds, AllocError>
        ensures { IfOk result (λ b. b ≡ self.now) }
    {
        Ok(Bounds {
            items: Vec::from_slice(alloc, self.items.as_slice())?,
            tops: Vec::from_slice(alloc, self.tops.as_slice())?,
        })
    }
}

/// The first region of a group of 64 whose bound is at least n.
fn first_of_group(bounds: &[u8], group: usize, n: u8) -> Option<usize>
    requires { group ≤ 128 }
    ensures some { IfSome result
        (λ r. (64 * group ≤ r) × (r < 64 * group + 64) × (r < length bounds.now)
        × (n ≤ slice_index bounds.now r)
        × ((q : ℕ) → 64 * group ≤ q → q < r → slice_index bounds.now q < n)) }
    ensures none { IfNone result
        ((q : ℕ) → 64 * group ≤ q → q < 64 * group + 64 → q < length bounds.now → slice_index bounds.now q < n) }
{
    let end = bounds.len().min(GROUP * group + GROUP);
    for region in GROUP * group..end {
        if bounds[region] >= n {
            return Some(region);
        }
    }
    None
}

/// A number of bounds that say nothing.
fn filled(alloc: Global, n: usize) -> Result<Vec<u8>, AllocError>
    ensures { IfOk result (λ v. v.items ≡ replicate n 128) }
{
    Ok(vec![in alloc; LONGEST; n]?)
}
