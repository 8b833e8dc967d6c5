//! Finding the subnodes of a node, and leaving some of them out.
ghost use Rattle.std.specs.Prelude.{◌≡◌, ℕ, false, IfOk, option_copied};
ghost use Rattle.std.specs.Option.{option_map};
ghost use Rattle.std.specs.Ordering.{nat_cmp};
ghost use Rattle.std.specs.BTreeMap.{get};
ghost use Rattle.std.specs.BTreeSet.{contains};
ghost use Rattle.pst_base.specs.Subs.{flattened};
ghost use Rattle.node_values.specs.Subnodes.{contents, data_of, place_from, subnode, without};

use pst_base::{Bytes, Sub, Subs};
use std::alloc::{AllocError, Global};
use std::collections::{BTreeMap, BTreeSet};
use std::marker::Model;

/// The subnodes directly in a node, to be found by their ids. Contracts see the flat list of all that stand below it.
#[derive(Debug, Drop)]
pub struct Finder<'a> {
    subs: &'a [Sub],
    places: BTreeMap<u32, usize>,
}

impl<'a> Model for Finder<'a> {
    ghost use Rattle.std.specs.Prelude.{◌≡◌, ℕ, List};
    ghost use Rattle.std.specs.Ordering.{nat_cmp};
    ghost use Rattle.std.specs.BTreeMap.{get};
    ghost use Rattle.pst_base.specs.Flat.{Flat};
    ghost use Rattle.pst_base.specs.Subs.{flattened};
    ghost use Rattle.node_values.specs.Subnodes.{place_from};

    ghost Value = { List Flat };

    ghost view = { λ f. flattened f.subs.now };

    ghost invariant = { λ f. (nid : ℕ) → get nat_cmp f.places nid ≡ place_from nid 0 f.subs.now };
}

/// Where the first subnode of each id stands.
fn places(alloc: Global, subs: &[Sub]) -> Result<BTreeMap<u32, usize>, AllocError>
    ensures { IfOk result (λ m. (nid : ℕ) → get nat_cmp m nid ≡ place_from nid 0 subs.now) }
{
    let mut places = BTreeMap::new(alloc);
    let mut i = subs.len();
    while i > 0 {
        i -= 1;
        places.insert(subs[i].nid.bits, i)?;
    }
    Ok(places)
}

/// The same subnode again.
pub fn copy_sub(alloc: Global, sub: &Sub) -> Result<Sub, AllocError>
    ensures { IfOk result (λ s. s ≡ sub.now) }
{
    Ok(Sub {
        nid: sub.nid,
        blocks: sub.blocks.copy(alloc)?,
        subs: sub.subs.copy(alloc)?,
    })
}

/// Copies of the subnodes whose ids aren't in a set, each with what stands below it.
fn others(alloc: Global, subs: &[Sub], ids: &BTreeSet<u32>) -> Result<Subs, AllocError>
    ensures { IfOk result (λ s. s ≡ without (contains nat_cmp ids.now) false (flattened subs.now)) }
{
    let mut out = Vec::new(alloc);
    for sub in subs {
        if !ids.contains(&sub.nid.bits) {
            out.push(copy_sub(alloc, sub)?)?;
        }
    }
    Ok(Subs::from_vec(out))
}

impl<'a> Finder<'a> {
    /// Makes the subnodes ready to be found.
    pub fn new(alloc: Global, subs: &'a Subs) -> Result<Finder<'a>, AllocError>
        ensures { IfOk result (λ f. f ≡ subs.now) }
    {
        let subs = subs.as_slice();
        Ok(Finder {
            subs,
            places: places(alloc, subs)?,
        })
    }

    /// The first subnode with this id.
    pub fn find(&self, nid: u32) -> Option<&'a Sub>
        ensures node { option_map contents (option_copied result) ≡ subnode self.now nid }
        ensures blocks { option_map (λ s. s.blocks) (option_copied result) ≡ data_of self.now nid }
    {
        match self.places.get(&nid) {
            Some(place) => Some(&self.subs[*place]),
            None => None,
        }
    }

    /// The data blocks of the first subnode with this id.
    pub fn data(&self, nid: u32) -> Option<&'a [Bytes]>
        ensures { option_copied result ≡ data_of self.now nid }
    {
        match self.find(nid) {
            Some(sub) => Some(sub.blocks.as_slice()),
            None => None,
        }
    }

    /// Copies of the subnodes whose ids aren't in a set, each with what stands below it.
    pub fn without(&self, alloc: Global, ids: &BTreeSet<u32>) -> Result<Subs, AllocError>
        ensures { IfOk result (λ s. s ≡ without (contains nat_cmp ids.now) false self.now) }
    {
        others(alloc, self.subs, ids)
    }
}
