//! The keeper of a file's nodes.
ghost use Rattle.pst_header.specs.Format.{IsWritable};

use crate::apply::apply_pieces;
use crate::save::{count_regions, region_end, save_maps, unmap};
use crate::store::{CommitPlan, NodeStore};
use node_port::{
    Changes, Counts, KeepStop, Keeper, NodeBlock, NodeReader, NodeRec, PrepareStop, Saver,
};
use pst_base::Nid;
use pst_header::Header;
use pst_outside::{Failed, Outside};
use std::alloc::Global;

/// A keeper of the nodes of a file: what reads them and plans changes, the header that counts, the header that counted when the file was opened, as bytes, and how many pins were numbered.
#[derive(Drop)]
pub struct FileKeeper<S> {
    pub store: S,
    pub header: Header,
    pub found: [u8; 564],
    pub given: u32,
    pub ghost writable: { IsWritable header },
}

impl<W: Outside, S: NodeStore<W>> NodeReader<W> for FileKeeper<S> {
    ghost use Rattle.std.specs.Prelude.{true};
    ghost use Rattle.pst_commit.specs.Keeping.{Holds, Pinned, pins_of, room_with};
    ghost use Rattle.pst_commit.specs.Laws.{holds_still, pinned_still};

    ghost holds = { λ k v. Holds (S.knows k.store) k.found k.header v };

    ghost last = { λ k. k.header.indexes };

    ghost room = { λ k. room_with (S.cells k.store) k.found (pins_of k.given (S.held k.store)) };

    ghost pinned = { λ k v p N. Pinned (S.held k.store) k.header v p N };

    ghost has_disk = { true };

    ghost holds_on = { λ k v w same N held. holds_still (S.knows k.store) k.found k.header (W.view v) (W.view w) N (same (λ i. true)) held };

    ghost pinned_on = { λ k v w same p N is. pinned_still (S.held k.store) k.header (W.view v) (W.view w) (same (λ i. true)) p N is };

    fn get(&mut self, alloc: Global, w: &mut W, nid: Nid) -> Result<Option<NodeRec>, KeepStop> {
        self.store.node(alloc, w, &self.header, nid)
    }

    fn get_content(
        &mut self,
        alloc: Global,
        w: &mut W,
        nid: Nid,
    ) -> Result<Option<NodeRec>, KeepStop> {
        self.store.content(alloc, w, &self.header, nid)
    }

    fn data_block(
        &mut self,
        alloc: Global,
        w: &mut W,
        nid: Nid,
        position: usize,
    ) -> Result<Option<NodeBlock>, KeepStop> {
        self.store.data_block(alloc, w, &self.header, nid, position)
    }

    fn next_after(&mut self, w: &mut W, nid: Option<Nid>) -> Result<Option<Nid>, KeepStop> {
        self.store.next(w, &self.header, nid)
    }
}

impl<W: Outside, S: NodeStore<W>> Keeper<W> for FileKeeper<S> {
    type Ready = CommitPlan<S::Adopts>;

    ghost use Rattle.std.specs.Prelude.{◌≡◌, ◌+◌};
    ghost use Rattle.gate_file.specs.Gate.{IsShut};
    ghost use Rattle.lays_kept.specs.Stands.{Stands};
    ghost use Rattle.pst_commit.specs.Commit.{bytes_in};
    ghost use Rattle.pst_commit.specs.Held.{opened_of};
    ghost use Rattle.pst_commit.specs.Keeping.{HasRoom, IsCommitted, PlansFor, pins_of};
    ghost use Rattle.pst_commit.specs.Laws.{held_measures, shut_on, stands_on};

    ghost fits = { λ k v ready last cs. (ready.header.indexes ≡ last) × PlansFor (S.knows k.store) (S.knows_after k.store ready.adopts) (S.becomes (opened_of (S.held k.store))) S.costs (S.held k.store) k.found k.header v ready.pieces.items ready.sealed ready.header cs };

    ghost stands = { Stands };

    ghost rests = { λ image. IsShut image.side };

    ghost applied = { λ pins cs bytes old new. IsCommitted S.becomes S.costs pins.opened cs bytes old new };

    ghost measures = { HasRoom };

    ghost cost = { λ ready. bytes_in ready.pieces.items + 1145 };

    ghost held_stands = { λ k w N held. held.1.stands };

    ghost held_measures = { λ k w N held. held_measures (S.knows k.store) (S.used k.store) (pins_of k.given (S.held k.store)) (S.cells k.store) (S.known_right k.store) k.found k.header (W.view w) N held };

    ghost stands_on = { λ found c d same N last is. stands_on found c d same N last is };

    ghost rests_on = { λ c d same is. shut_on c d same is };

    fn counts(&self) -> Counts {
        Counts {
            last: self.header.indexes,
        }
    }

    fn prepare(
        &mut self,
        alloc: Global,
        w: &mut W,
        changes: Changes,
    ) -> Result<CommitPlan<S::Adopts>, PrepareStop> {
        self.store.plan(alloc, w, &self.header, changes)
    }

    fn apply(&mut self, w: &mut W, ready: CommitPlan<S::Adopts>) -> Result<(), Failed> {
        let CommitPlan {
            pieces,
            sealed,
            header,
            adopts,
        } = ready;
        apply_pieces(w, pieces.as_slice(), &sealed)?;
        self.header = header;
        self.store.adopt(adopts);
        Ok(())
    }
}

impl<W: Outside, S: NodeStore<W>> Saver<W> for FileKeeper<S> {
    ghost use Rattle.std.specs.Prelude.{◌+◌, ◌*◌};
    ghost use Rattle.file_layout.specs.Nodes.{regions_to};
    ghost use Rattle.pst_commit.specs.Keeping.{IsSaved};

    ghost saved = { IsSaved };

    ghost save_cost = { λ k. 512 * regions_to k.header.eof + 4096 };

    fn save(&mut self, w: &mut W) -> Result<(), Failed> {
        let regions = count_regions(self.header.eof, self.store.slots().regions());
        let unmapped = unmap(w, &self.header, region_end(regions))?;
        self.store.stay();
        self.header = save_maps(w, &unmapped, self.store.slots(), regions)?;
        self.store.stay();
        Ok(())
    }
}
