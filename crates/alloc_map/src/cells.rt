//! The used slots, with the number of their free cells.
ghost use Rattle.std.specs.Prelude.{◌≡◌, ◌<◌, ◌≤◌, ◌*◌, ◌+◌, ◌^◌, length, IfOk};
ghost use Rattle.alloc_map.specs.Cells.{cells_from, cells_until, free_below, free_cells_of};
ghost use Rattle.alloc_map.specs.Slots.{Becomes, Unites, regions_of};

use crate::bits::Bits;
use crate::search::{HEAD, REGION};
use std::alloc::{AllocError, Global};
use std::marker::Model;

/// How many cells of 8192 bytes a region has.
const CELLS: usize = 30;

/// How many slots a cell has.
const CELL: usize = 128;

/// The used slots of from 1 to 8192 whole regions, with the number of free cells, which each change keeps. Contracts see the slots.
#[derive(Debug, Drop)]
pub(crate) struct Cells {
    bits: Bits,
    free: u64,
}

impl Model for Cells {
    ghost use Rattle.std.specs.Prelude.{List, Bool};
    ghost use Rattle.alloc_map.specs.Cells.{IsCounted};

    ghost Value = { List Bool };

    ghost view = { λ c. c.bits };

    ghost invariant = { λ c. IsCounted c.bits c.free };
}

impl Cells {
    /// These slots, whose free cells are counted.
    pub(crate) fn new(bits: Bits) -> Cells
        requires whole { length bits ≡ 3968 * regions_of bits }
        requires few { regions_of bits ≤ 8192 }
        ensures { result ≡ bits }
    {
        let free = all_free(&bits);
        Cells { bits, free }
    }

    /// The slots alone.
    pub(crate) fn bits(&self) -> &Bits
        ensures { result.now ≡ self.now }
    {
        &self.bits
    }

    /// How many cells are free.
    pub(crate) fn free(&self) -> u64
        ensures { result ≡ free_cells_of self.now }
    {
        self.free
    }

    /// Uses or frees the n slots from one on. Looks only at the cells that they meet.
    pub(crate) fn fill(&mut self, from: usize, n: usize, value: bool)
        requires within { from + n ≤ length self.old }
        requires small { length self.old < 2 ^ 32 }
        ensures { Becomes self.old self.new from n value }
    {
        let (first, last) = (cells_until(from), cells_from(from + n));
        let before = free_between(&self.bits, first, last);
        self.bits.fill(from, n, value);
        let after = free_between(&self.bits, first, last);
        self.free = self.free + after - before;
    }

    /// Takes the slots of another set, which has as many.
    pub(crate) fn assign(&mut self, other: &Cells)
        requires { length self.old ≡ length other.now }
        ensures { self.new ≡ other.now }
    {
        self.bits.assign(&other.bits);
        self.free = other.free;
    }

    /// Uses also the slots of another set, which has as many.
    pub(crate) fn unite(&mut self, other: &Cells)
        requires { length self.old ≡ length other.now }
        ensures { Unites self.old other.now self.new }
    {
        self.bits.unite(&other.bits);
        self.free = all_free(&self.bits);
    }

    /// The same slots again.
    pub(crate) fn copy(&self, alloc: Global) -> Result<Cells, AllocError>
        ensures { IfOk result (λ c. c ≡ self.now) }
    {
        Ok(Cells {
            bits: self.bits.copy(alloc)?,
            free: self.free,
        })
    }
}

/// How many cells end at or before a slot.
fn cells_until(slot: usize) -> usize
    ensures { result ≡ cells_until slot }
{
    CELLS * (slot / REGION) + ((slot % REGION).saturating_sub(HEAD) / CELL).min(CELLS)
}

/// How many cells begin before a slot.
fn cells_from(slot: usize) -> usize
    ensures { result ≡ cells_from slot }
{
    CELLS * (slot / REGION) + ((slot % REGION + (CELL - 1 - HEAD)) / CELL).min(CELLS)
}

/// How many cells are free from one on and below another.
fn free_between(bits: &Bits, from: usize, to: usize) -> u64
    requires ordered { from ≤ to }
    requires within { to ≤ 30 * regions_of bits.now }
    requires few { regions_of bits.now ≤ 8192 }
    requires whole { length bits.now ≡ 3968 * regions_of bits.now }
    ensures { free_below bits.now from + result ≡ free_below bits.now to }
{
    let mut free = 0;
    for cell in from..to {
        let byte = (REGION * (cell / CELLS) + HEAD + CELL * (cell % CELLS)) / 8;
        if bits.are_clear(byte, CELL / 8) {
            free += 1;
        }
    }
    free
}

/// How many cells are free.
fn all_free(bits: &Bits) -> u64
    requires whole { length bits.now ≡ 3968 * regions_of bits.now }
    requires few { regions_of bits.now ≤ 8192 }
    ensures { result ≡ free_cells_of bits.now }
{
    free_between(bits, 0, CELLS * (bits.bytes() / (REGION / 8)))
}
