//! A desk over a keeper and its world.
use crate::desk::{CountingDesk, Desk};
use crate::draft::Draft;
use crate::glance::{has_row, message_content, row_count};
use crate::ids::next_index;
use crate::kept::{kept_message, kept_table};
use crate::limits::within_limits;
use crate::listed::message_ids_at;
use crate::once::{context_once, parent_at};
use crate::read::{context_at, table_at};
use crate::rows::table_out;
use crate::seen::Seen;
use crate::stop::Stop;
use crate::unread::is_unread;
use mail_objects::{Context, Mail, Object, TableNode};
use mail_tree::{Flags, Places};
use node_port::{Counts, Keeper, NodeReader, NodeRec};
use pst_base::Nid;
use pst_outside::Outside;
use std::alloc::Global;
use std::mem::replace;

/// A desk over the nodes of a keeper: where their folders stand and what else is known of them, what was read, and what the line has changed.
#[derive(Drop)]
pub struct StoreDesk<'k, 'w, 'p, 'f, 's, 'd, W: Outside, K: NodeReader<W>> {
    pub keeper: &'k mut K,
    pub world: &'w mut W,
    pub places: &'p Places,
    pub flags: &'f Flags,
    pub seen: &'s mut Seen,
    pub draft: &'d mut Draft,
    pub alloc: Global,
}

impl<'k, 'w, 'p, 'f, 's, 'd, W: Outside, K: NodeReader<W>> Desk
    for StoreDesk<'k, 'w, 'p, 'f, 's, 'd, W, K> {
    ghost use Rattle.std.specs.Prelude.{◌≡◌};
    ghost use Rattle.mail_draft.specs.Answers.{Looks};
    ghost use Rattle.mail_draft.specs.Drafts.{changed_of};
    ghost use Rattle.mail_draft.specs.Showing.{Showing, own_ids};

    ghost view = { λ s. record {
      shows = Showing (K.holds s.keeper.now (W.view s.world.now)) (K.last s.keeper.now) s.places.now s.flags.now s.seen.now;
      changed = changed_of s.draft.now;
      disk = K.has_disk;
      faults = (W.view s.world.now).disk_faults;
      since = λ first. (s.keeper.ghost_name ≡ first.keeper.ghost_name) × (s.world.ghost_name ≡ first.world.ghost_name) × (s.seen.ghost_name ≡ first.seen.ghost_name) × (s.draft.ghost_name ≡ first.draft.ghost_name) × (s.places.now ≡ first.places.now) × (s.flags.now ≡ first.flags.now) × Looks (K.holds first.keeper.now (W.view first.world.now)) (K.holds s.keeper.now (W.view s.world.now)) (K.last first.keeper.now) (K.last s.keeper.now) (K.room first.keeper.now) (K.room s.keeper.now) (W.view first.world.now) (W.view s.world.now);
    } };

    ghost own_ids = { λ s T showing. own_ids T showing.shown };

    fn alloc(&self) -> Global {
        self.alloc
    }

    fn places(&self) -> &Places {
        self.places
    }

    fn context_before(&mut self, nid: Nid) -> Result<Context, Stop> {
        context_once(self.alloc, self.keeper, self.world, self.seen, nid)
    }

    fn message_before(&mut self, nid: Nid) -> Result<Mail, Stop> {
        kept_message(self.alloc, self.keeper, self.world, nid)
    }

    fn content_before(&mut self, nid: Nid) -> Result<NodeRec, Stop> {
        message_content(self.alloc, self.keeper, self.world, nid)
    }

    fn table_before(&mut self, nid: Nid) -> Result<TableNode, Stop> {
        kept_table(self.alloc, self.keeper, self.world, nid)
    }

    fn context(&mut self, nid: Nid) -> Result<Context, Stop> {
        if self.draft.get(nid).is_some() {
            return context_at(self.alloc, self.keeper, self.world, self.draft, nid);
        }
        context_once(self.alloc, self.keeper, self.world, self.seen, nid)
    }

    fn table(&mut self, nid: Nid) -> Result<TableNode, Stop> {
        table_at(self.alloc, self.keeper, self.world, self.draft, nid)
    }

    fn take_table(&mut self, nid: Nid) -> Result<TableNode, Stop> {
        let draft = replace(self.draft, Draft::new(self.alloc));
        let (rest, table) = table_out(self.alloc, self.keeper, self.world, draft, nid)?;
        *self.draft = rest;
        Ok(table)
    }

    fn message_ids(&mut self, table: Nid) -> Result<Vec<u32>, Stop> {
        message_ids_at(self.alloc, self.keeper, self.world, self.draft, table)
    }

    fn is_unread(&mut self, message: Nid) -> Result<bool, Stop> {
        is_unread(
            self.alloc,
            self.keeper,
            self.world,
            self.draft,
            self.flags,
            message,
        )
    }

    fn parent(&mut self, nid: Nid) -> Result<Nid, Stop> {
        parent_at(self.alloc, self.keeper, self.world, nid)
    }

    fn has_row(&mut self, table: Nid, row: Nid) -> Result<bool, Stop> {
        has_row(self.alloc, self.keeper, self.world, table, row)
    }

    fn row_count(&mut self, table: Nid) -> Result<usize, Stop> {
        row_count(self.alloc, self.keeper, self.world, table)
    }

    fn put(&mut self, nid: Nid, object: Option<Object>) -> Result<(), Stop> {
        let draft = replace(self.draft, Draft::new(self.alloc));
        *self.draft = draft.with(nid, object)?;
        Ok(())
    }

    fn check_limits(&mut self, new: Option<Nid>) -> Result<(), Stop> {
        within_limits(self.alloc, self.keeper, self.world, self.draft, new)
    }
}

impl<'k, 'w, 'p, 'f, 's, 'd, W: Outside, K: Keeper<W>> CountingDesk
    for StoreDesk<'k, 'w, 'p, 'f, 's, 'd, W, K> {
    fn counts(&self) -> Counts {
        self.keeper.counts()
    }

    fn next_index(&mut self, kind: u8, kinds: &[u8]) -> Result<u64, Stop> {
        next_index(self.alloc, self.keeper, self.world, kind, kinds)
    }
}
