//! Pins of a file's keeper.
ghost use Rattle.std.specs.Prelude.{◌≡◌};
ghost use Rattle.pst_commit.specs.Held.{rooted};

use crate::keeper::FileKeeper;
use crate::store::{NodeStore, Pin};
use node_port::{KeepStop, NodeRec, Pinner, PinsFull};
use pst_base::{MemOr, Nid};
use pst_header::Header;
use pst_outside::Outside;
use std::alloc::Global;

/// How many pins may be open at once.
const MOST: usize = 16;

/// The header with the roots of a pin.
fn rooted(header: &Header, pin: Pin) -> Header
    ensures { result ≡ rooted header.now pin.nbt pin.bbt }
{
    Header {
        nbt: pin.nbt,
        bbt: pin.bbt,
        ..*header
    }
}

impl<W: Outside, S: NodeStore<W>> Pinner<W> for FileKeeper<S> {
    fn pin(&mut self, alloc: Global) -> Result<u32, MemOr<PinsFull>> {
        if self.store.count_pins() >= MOST || self.given == u32::MAX {
            return Err(MemOr::Refused(PinsFull));
        }
        let number = self.given + 1;
        // (no pin has the next number, which the types don't say)
        if self.store.pin_at(number).is_some() {
            return Err(MemOr::Memory);
        }
        let pin = Pin {
            number,
            nbt: self.header.nbt,
            bbt: self.header.bbt,
        };
        self.store.hold(alloc, pin)?;
        self.given = number;
        Ok(number)
    }

    fn has_pin(&self, p: u32) -> bool {
        self.store.pin_at(p).is_some()
    }

    fn get_at(
        &mut self,
        alloc: Global,
        w: &mut W,
        p: u32,
        nid: Nid,
    ) -> Result<Option<NodeRec>, KeepStop> {
        let Some(pin) = self.store.pin_at(p) else {
            unreachable!()
        };
        let header = rooted(&self.header, pin);
        self.store.node(alloc, w, &header, nid)
    }

    fn next_at(&mut self, w: &mut W, p: u32, nid: Option<Nid>) -> Result<Option<Nid>, KeepStop> {
        let Some(pin) = self.store.pin_at(p) else {
            unreachable!()
        };
        let header = rooted(&self.header, pin);
        self.store.next(w, &header, nid)
    }

    fn unpin(&mut self, p: u32) -> bool {
        let is_open = self.store.pin_at(p).is_some();
        self.store.let_go(p);
        is_open
    }
}
