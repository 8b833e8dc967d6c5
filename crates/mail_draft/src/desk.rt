//! What a line is worked out on.
ghost use Rattle.std.specs.Prelude.{◌≡◌, ◌<◌, true, Ok, OnOk};
ghost use Rattle.command_text.specs.declared.reply.CommandRefusal.TheVariants as refusal;
ghost use Rattle.mail_tree.specs.Changing.{context_at, found, message_at, nothing, now_at, table_at, with_object, within_limits};
ghost use Rattle.mail_tree.specs.Ids.{next_index};
ghost use Rattle.mail_tree.specs.Messages.{parent_at};
ghost use Rattle.mail_tree.specs.Tree.{Tree};
ghost use Rattle.mail_draft.specs.Drafts.{all_fit};
ghost use Rattle.mail_draft.specs.Glancing.{HoldsMessage};
ghost use Rattle.mail_draft.specs.Listed.{has_row, listed_in, row_count};
ghost use Rattle.mail_draft.specs.Placed.{is_placed};
ghost use Rattle.mail_draft.specs.Sight.{Answers, AreOwn, Changes, Drafts, IsAbout, Reads, SameBeside, Sight};
ghost use Rattle.mail_draft.specs.Unread.{unread_of};
ghost use Rattle.mail_draft.specs.Walks.{are_kinds};

use crate::stop::Stop;
use mail_objects::{Context, Mail, Object, TableNode};
use mail_tree::Places;
use node_port::{Counts, NodeRec};
use pst_base::Nid;
use std::alloc::Global;

/// A desk: what reads nodes, what is known of their tree, what the line has changed so far, and the objects that were read.
pub trait Desk {
    /// What contracts see of it.
    ghost view: { Self → Sight Self };

    /// Messages of a tree that is shown stand at their own ids.
    ghost own_ids: { (desk : Self) (T : Tree) → (view desk).shows T → AreOwn T };

    /// Where memory comes from.
    fn alloc(&self) -> Global;

    /// Where the folders stand before the line.
    fn places(&self) -> &Places
        ensures { IsAbout (view self.now) (λ T. T.places ≡ result.now) };

    /// The properties at an id before the line.
    fn context_before(&mut self, nid: Nid) -> Result<Context, Stop>
        ensures reads { Reads (view self.old) (view self.new) result }
        ensures answer { Answers (view self.old) (λ c. c) (λ T D. context_at T nothing nid.bits) result };

    /// The message at an id before the line.
    fn message_before(&mut self, nid: Nid) -> Result<Mail, Stop>
        ensures reads { Reads (view self.old) (view self.new) result }
        ensures answer { Answers (view self.old) (λ m. m) (λ T D. message_at T nothing nid.bits) result };

    /// The node of the message at an id before the line, without its subnodes, for `glance_of`.
    fn content_before(&mut self, nid: Nid) -> Result<NodeRec, Stop>
        ensures reads { Reads (view self.old) (view self.new) result }
        ensures content { IsAbout (view self.old) (λ T. HoldsMessage T nid.bits result) };

    /// The table at an id before the line.
    fn table_before(&mut self, nid: Nid) -> Result<TableNode, Stop>
        ensures reads { Reads (view self.old) (view self.new) result }
        ensures answer { Answers (view self.old) (λ t. t) (λ T D. table_at T nothing nid.bits) result };

    /// The properties at an id, as the line has them.
    fn context(&mut self, nid: Nid) -> Result<Context, Stop>
        ensures reads { Reads (view self.old) (view self.new) result }
        ensures answer { Answers (view self.old) (λ c. c) (λ T D. context_at T D nid.bits) result };

    /// The table at an id, as the line has it.
    fn table(&mut self, nid: Nid) -> Result<TableNode, Stop>
        ensures reads { Reads (view self.old) (view self.new) result }
        ensures answer { Answers (view self.old) (λ t. t) (λ T D. table_at T D nid.bits) result };

    /// The table at an id, as the line has it, which is to be put again: one that the line has put isn't copied.
    fn take_table(&mut self, nid: Nid) -> Result<TableNode, Stop>
        ensures drafts { Drafts (view self.old) (view self.new) result }
        ensures answer { Answers (view self.old) (λ t. t) (λ T D. table_at T D nid.bits) result }
        ensures rest { OnOk result (SameBeside nid.bits (view self.old).changed (view self.new).changed) };

    /// The ids of the messages that the table at an id lists, as the line has it.
    fn message_ids(&mut self, table: Nid) -> Result<Vec<u32>, Stop>
        ensures reads { Reads (view self.old) (view self.new) result }
        ensures answer { Answers (view self.old) (λ ids. ids.items) (λ T D. listed_in (now_at T D table.bits)) result };

    /// Whether the message at an id is unread, as the line has it.
    fn is_unread(&mut self, message: Nid) -> Result<bool, Stop>
        ensures reads { Reads (view self.old) (view self.new) result }
        ensures answer { Answers (view self.old) (λ b. b) (λ T D. unread_of (now_at T D message.bits)) result };

    /// The parent of the node with this id. Refused where there is none.
    fn parent(&mut self, nid: Nid) -> Result<Nid, Stop>
        ensures reads { Reads (view self.old) (view self.new) result }
        ensures answer { Answers (view self.old) (λ n. n.bits) (λ T D. found refusal.Object (parent_at T nid.bits)) result };

    /// Whether the table at an id has a row, before the line.
    fn has_row(&mut self, table: Nid, row: Nid) -> Result<bool, Stop>
        ensures reads { Reads (view self.old) (view self.new) result }
        ensures answer { Answers (view self.old) (λ b. b) (λ T D. has_row T table.bits row.bits) result };

    /// How many rows the table at an id has, before the line.
    fn row_count(&mut self, table: Nid) -> Result<usize, Stop>
        ensures reads { Reads (view self.old) (view self.new) result }
        ensures answer { Answers (view self.old) (λ n. n) (λ T D. row_count T table.bits) result };

    /// Puts an object at an id, or removes what stands there. A message is put at its own id.
    fn put(&mut self, nid: Nid, object: Option<Object>) -> Result<(), Stop>
        requires placed { is_placed (nid.bits, object) ≡ true }
        ensures drafts { Drafts (view self.old) (view self.new) result }
        ensures answer { Changes (view self.old) (view self.new) (λ T D. Ok (with_object nid.bits object D)) result };

    /// Refused where the changes pass a limit.
    fn check_limits(&mut self, new: Option<Nid>) -> Result<(), Stop>
        ensures reads { Reads (view self.old) (view self.new) result }
        ensures answer { Answers (view self.old) (λ u. u) (λ T D. within_limits T new D) result }
        ensures fits { OnOk result (all_fit (view self.new).changed ≡ true) };
}

/// A desk that has the counters of indices, by which new objects get their ids.
pub trait CountingDesk: Desk {
    /// The counters before the line.
    fn counts(&self) -> Counts
        ensures { IsAbout (Self.view self.now) (λ T. T.last ≡ result.last) };

    /// The index of the next object of a kind: it follows the counter of the kind and the indexes of all nodes of these kinds. It may be past the last one.
    fn next_index(&mut self, kind: u8, kinds: &[u8]) -> Result<u64, Stop>
        requires kind { kind < 32 }
        requires kinds { are_kinds kinds.now ≡ true }
        ensures reads { Reads (Self.view self.old) (Self.view self.new) result }
        ensures answer { Answers (Self.view self.old) (λ n. n) (λ T D. Ok (next_index T kind kinds.now)) result };
}
