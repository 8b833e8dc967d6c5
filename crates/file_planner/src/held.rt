//! The pins of a file, and the slots that they hold.
ghost use Rattle.std.specs.Prelude.{◌≡◌, ◌==◌, ◌++◌, ◌∷◌, [], Bool, List, length, position, None, OnErr, OnOk};
ghost use Rattle.alloc_map.specs.Slots.{Unites};
ghost use Rattle.alloc_map.specs.Taken.{Taken};
ghost use Rattle.pst_commit.specs.Held.{IsWithHeld, held_without, opened_of, pin_at};
ghost use Rattle.plan_placing.specs.Places.{placing_over};
ghost use Rattle.file_planner.specs.Holding.{AreLong, AreSized, IsHolding};

use crate::freeing::free_each;
use alloc_map::Slots;
use pst_base::Place;
use pst_commit::Pin;
use std::alloc::{AllocError, Global};

/// Pins, each with the slots that the file used when it was made, and where any is kept the union of these with the slots that it uses now: no plan places there.
#[derive(Drop)]
pub(crate) struct Held {
    pub(crate) pins: Vec<(Pin, Slots)>,
    pub(crate) all: Option<Slots>,
}

impl Held {
    /// No pins. Takes no memory.
    pub(crate) fn new(alloc: Global) -> Held
        ensures pins { result.pins.items ≡ [] }
        ensures none { result.all ≡ None }
    {
        Held {
            pins: Vec::new(alloc),
            all: None,
        }
    }

    /// The slots over which a plan places, where the file uses its own.
    pub(crate) fn placing<'a>(&'a self, own: &'a Slots) -> &'a Slots
        ensures { result.now ≡ placing_over own.now self.now.all }
    {
        match &self.all {
            Some(all) => all,
            None => own,
        }
    }

    /// Keeps a pin, with the slots that the file uses now. A failure leaves all as it was.
    pub(crate) fn hold(&mut self, alloc: Global, pin: Pin, own: &Slots) -> Result<(), AllocError>
        ensures pins { OnOk result (self.new.pins.items ≡ self.old.pins.items ++ (pin, own.now) ∷ []) }
        ensures none { OnErr result (self.new.pins.items ≡ self.old.pins.items) }
        ensures placing { placing_over own.now self.new.all ≡ placing_over own.now self.old.all }
        ensures holding { IsHolding own.now self.old.pins.items self.old.all → IsHolding own.now self.new.pins.items self.new.all }
    {
        let slots = own.copy(alloc)?;
        if self.all.is_some() {
            self.pins.push((pin, slots))?;
            return Ok(());
        }
        let all = own.copy(alloc)?;
        self.pins.push((pin, slots))?;
        self.all = Some(all);
        Ok(())
    }

    /// The place of the pin of a number in the list.
    fn place(&self, number: u32) -> Option<usize>
        ensures { result ≡ position (λ pin. pin.0.number == number) self.now.pins.items }
    {
        self.pins.iter().position(|pin| pin.0.number == number)
    }

    /// The pin of a number, if it is kept. Takes no memory.
    pub(crate) fn pin_at(&self, number: u32) -> Option<Pin>
        ensures { result ≡ pin_at number self.now.pins.items }
    {
        let Some(i) = self.place(number) else {
            return None;
        };
        Some(self.pins[i].0)
    }

    /// How many pins are kept. Takes no memory.
    pub(crate) fn count(&self) -> usize
        ensures { result ≡ length self.now.pins.items }
    {
        self.pins.len()
    }

    /// Keeps the pin of a number no more, if it was kept. Takes no memory.
    pub(crate) fn let_go(&mut self, number: u32, own: &Slots)
        ensures pins { self.new.pins.items ≡ held_without number self.old.pins.items }
        ensures holding { IsHolding own.now self.old.pins.items self.old.all → IsHolding own.now self.new.pins.items self.new.all }
    {
        let Some(i) = self.place(number) else {
            return;
        };
        let _let_go = self.pins.remove(i);
        self.settle(own);
    }

    /// Follows a commit that takes places and then frees others: the union uses what is taken, and frees of what is freed all that no pin holds. Takes no memory, and looks at these places alone.
    pub(crate) fn follow(&mut self, taken: &[Place], freed: &[Place])
        ensures pins { self.new.pins.items ≡ self.old.pins.items }
        ensures holding { (own mid after united : List Bool) → IsHolding own self.old.pins.items self.old.all → Taken own mid taken.now → Taken (placing_over own self.old.all) united taken.now → Taken after mid freed.now → IsHolding after self.new.pins.items self.new.all }
    {
        if let Some(all) = &mut self.all {
            all.retake(taken);
            free_each(all, self.pins.as_slice(), freed);
        }
    }

    /// Makes the union anew, after a pin was given up. Takes no memory, and goes over the slots of each pin that is left.
    fn settle(&mut self, own: &Slots)
        ensures pins { self.new.pins.items ≡ self.old.pins.items }
        ensures holding { AreSized own.now self.old.pins.items self.old.all → IsHolding own.now self.new.pins.items self.new.all }
    {
        if self.pins.is_empty() {
            self.all = None;
        }
        if let Some(all) = &mut self.all {
            remake(all, own, self.pins.as_slice());
        }
    }
}

/// Makes the union of a file's own slots with those of pins. Sets of other sizes, which aren't there, are passed over.
fn remake(all: &mut Slots, own: &Slots, pins: &[(Pin, Slots)])
    ensures size { length all.new ≡ length all.old }
    ensures with_held { length all.old ≡ length own.now → AreLong (length own.now) pins.now → IsWithHeld own.now (opened_of pins.now) all.new }
{
    if all.regions() != own.regions() {
        return;
    }
    all.assign(own);
    unite_each(all, pins);
}

/// Uses also the slots of pins.
fn unite_each(all: &mut Slots, pins: &[(Pin, Slots)])
    ensures size { length all.new ≡ length all.old }
    ensures with_held { AreLong (length all.old) pins.now → IsWithHeld all.old (opened_of pins.now) all.new }
{
    for pin in pins {
        unite(all, &pin.1);
    }
}

/// Uses also the slots of another set, if it is one of as many regions.
fn unite(all: &mut Slots, other: &Slots)
    ensures size { length all.new ≡ length all.old }
    ensures united { length other.now ≡ length all.old → Unites all.old other.now all.new }
{
    if all.regions() == other.regions() {
        all.unite(other);
    }
}
