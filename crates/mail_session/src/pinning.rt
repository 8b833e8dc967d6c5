//! Pins of a keeper in memory.
ghost use Rattle.std.specs.Prelude.{◌≡◌, ◌==◌, position};

use crate::copied::{MemoryPin, copy_nodes};
use crate::memory::MemoryKeeper;
use node_port::{KeepStop, NodeRec, Pinner, PinsFull};
use pst_base::{MemOr, Nid};
use pst_outside::Outside;
use std::alloc::Global;

/// How many pins may be open at once.
const MOST: usize = 16;

impl MemoryKeeper {
    /// The place of the pin of a number in the list.
    fn place(&self, number: u32) -> Option<usize>
        ensures { result ≡ position (λ pin. pin.number == number) self.now.pins.items }
    {
        self.pins.iter().position(|pin| pin.number == number)
    }
}

impl<W: Outside> Pinner<W> for MemoryKeeper {
    fn pin(&mut self, alloc: Global) -> Result<u32, MemOr<PinsFull>> {
        if self.pins.len() >= MOST || self.given == u32::MAX {
            return Err(MemOr::Refused(PinsFull));
        }
        let number = self.given + 1;
        // (no pin has the next number, which the types don't say)
        if self.place(number).is_some() {
            return Err(MemOr::Memory);
        }
        let nodes = copy_nodes(alloc, &mut self.nodes)?;
        self.pins.push(MemoryPin { number, nodes })?;
        self.given = number;
        Ok(number)
    }

    fn has_pin(&self, p: u32) -> bool {
        self.place(p).is_some()
    }

    fn get_at(
        &mut self,
        alloc: Global,
        _w: &mut W,
        p: u32,
        nid: Nid,
    ) -> Result<Option<NodeRec>, KeepStop> {
        let Some(i) = self.place(p) else {
            unreachable!()
        };
        Ok(self.pins[i].get(alloc, nid)?)
    }

    fn next_at(&mut self, _w: &mut W, p: u32, nid: Option<Nid>) -> Result<Option<Nid>, KeepStop> {
        let Some(i) = self.place(p) else {
            unreachable!()
        };
        Ok(self.pins[i].next_after(nid))
    }

    fn unpin(&mut self, p: u32) -> bool {
        match self.place(p) {
            Some(i) => {
                let _gone = self.pins.remove(i);
                true
            }
            None => false,
        }
    }
}
