//! The session in memory, which answers lines.
ghost use Rattle.std.specs.Prelude.{◌≡◌, IfOk, IsTrue};
ghost use Rattle.mail_searches.specs.Searching.{Searching, StartsSearching};
ghost use Rattle.node_port.specs.Nodes.{ascend, changed, no_nodes};
ghost use Rattle.node_port.specs.Pins.{no_pins};
ghost use Rattle.node_port.specs.Slots.{Keeps};
ghost use Rattle.file_filling.specs.mail_transactions.State.{begins};
ghost use Rattle.mail_session.specs.Boxes.{NAME};
ghost use Rattle.mail_session.specs.Mailboxes.{Sits};
ghost use Rattle.mail_session.specs.Memory.{memory_room};

use crate::memory::MemoryKeeper;
use crate::nowhere::Nowhere;
use file_filling::mail_store::Store;
use file_filling::mail_transactions::{SessionStore, answer_line};
use file_filling::search_store::SearchStore;
use line_server::{LineAnswerer, Spoken};
use mail_searches::{KnownSearches, OwnFolders, Searches};
use mail_tree::{Flags, Known};
use mapi_values::Units;
use new_store::new_store;
use node_port::{Changes, Keeper};
use pst_outside::Outside;
use std::alloc::{AllocError, Global};

/// A session in memory, and the world over which its keeper is asked, which has nothing. The session is there but while it answers a line.
#[derive(Drop)]
pub(crate) struct Mailbox {
    session: Option<SessionStore<MemoryKeeper>>,
    nowhere: Nowhere,
}

/// What stops a session in memory: nothing.
#[derive(Drop)]
pub(crate) enum NoStop {}

/// The name of the store in memory, `scratch`.
const LETTERS: [u16; 7] = [0x73, 0x63, 0x72, 0x61, 0x74, 0x63, 0x68];

/// The name of the store in memory.
fn store_name(alloc: Global) -> Result<Units, AllocError>
    ensures { IfOk result (λ name. name ≡ NAME) }
{
    let mut units = Vec::new(alloc);
    units.extend_from_slice(&LETTERS)?;
    Ok(Units::from_vec(units))
}

/// Nodes kept in memory, without pins. An `Err` comes of want of memory alone: there is no disk, and room for all.
fn keep_nodes(alloc: Global, changes: Changes) -> Result<MemoryKeeper, AllocError>
    requires order { IsTrue (ascend 0 changes.nodes.items) }
    requires room { changes.room ≡ 0 }
    ensures nodes { IfOk result (λ k. Keeps k.nodes.nodes (changed no_nodes changes.nodes.items)) }
    ensures counts { IfOk result (λ k. k.nodes.counts.last ≡ changes.counts.last) }
    ensures pins { IfOk result (λ k. (memory_room k).pins ≡ no_pins) }
{
    let mut nowhere = Nowhere::new();
    let mut keeper = MemoryKeeper::new(alloc);
    let Ok(ready) = keeper.prepare(alloc, &mut nowhere, changes) else {
        return Err(AllocError);
    };
    match keeper.apply(&mut nowhere, ready) {
        Ok(()) => Ok(keeper),
        Err(_) => Err(AllocError),
    }
}

impl Mailbox {
    /// A session over a new store.
    pub(crate) fn new(alloc: Global) -> Result<Mailbox, AllocError>
        ensures { IfOk result (λ m. (X : Searching) × StartsSearching NAME X × Sits m (begins X)) }
    {
        let name = store_name(alloc)?;
        let new = new_store(alloc, &name)?;
        let known = Known {
            places: new.places,
            flags: Flags::new(alloc),
        };
        let changes = Changes {
            nodes: new.nodes,
            counts: new.counts,
            room: 0,
        };
        let keeper = keep_nodes(alloc, changes)?;
        let searches = KnownSearches {
            own: OwnFolders::new(alloc),
            searches: Searches::new(alloc),
        };
        let store = SearchStore {
            store: Store { keeper, known },
            searches,
        };
        Ok(Mailbox {
            session: Some(SessionStore::new(alloc, store)),
            nowhere: Nowhere::new(),
        })
    }
}

impl<W: Outside> LineAnswerer<W> for Mailbox {
    type Stop = NoStop;

    ghost use Rattle.mail_session.specs.Mailboxes.{BoxAnswers, BoxStops};

    ghost answers = { BoxAnswers };

    ghost stops = { BoxStops };

    fn answer(&mut self, alloc: Global, _world: &mut W, line: &[u8]) -> Result<Spoken, NoStop> {
        let Some(session) = self.session.take() else {
            return Ok(Spoken::NoMemory);
        };
        let (session, answer) = answer_line(alloc, session, &mut self.nowhere, line);
        self.session = Some(session);
        match answer {
            Ok(spoken) => Ok(spoken),
            // (no disk fails, and nothing changes what a session in memory found)
            Err(_) => Ok(Spoken::NoMemory),
        }
    }
}
