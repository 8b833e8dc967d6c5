//! What the lists of searches ask of the desk over a keeper.
use crate::desk::SearchDesk;
use mail_draft::{Draft, Stop, StoreDesk, message_ids_at};
use mail_objects::Object;
use node_port::NodeReader;
use pst_base::Nid;
use pst_outside::Outside;

impl<'k, 'w, 'p, 'f, 's, 'd, W: Outside, K: NodeReader<W>> SearchDesk
    for StoreDesk<'k, 'w, 'p, 'f, 's, 'd, W, K> {
    fn drafted(&self, nid: Nid) -> Option<&Option<Object>> {
        self.draft.get(nid)
    }

    fn message_ids_before(&mut self, table: Nid) -> Result<Vec<u32>, Stop> {
        message_ids_at(
            self.alloc,
            self.keeper,
            self.world,
            &Draft::new(self.alloc),
            table,
        )
    }
}
