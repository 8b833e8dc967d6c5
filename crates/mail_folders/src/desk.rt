//! What the commands on folders ask of a desk, beside what all commands ask.
ghost use Rattle.mail_draft.specs.Desks.{Comes};
ghost use Rattle.mail_draft.specs.Sight.{Answers, Changes, Drafts, IsAbout, Reads};
ghost use Rattle.mail_tree.specs.Flags.{AreFlags};
ghost use Rattle.mail_tree.specs.Folders.{making};
ghost use Rattle.mail_tree.specs.Ids.{folder_kinds, is_taken, next_index};
ghost use Rattle.mail_tree.specs.Settling.{mirrored, settled};
ghost use Rattle.mail_tree.specs.Tree.{object_at};
ghost use Rattle.std.specs.Prelude.{Ok};

use mail_draft::{Coming, Desk, Stop};
use mail_tree::{Flags, Places};
use pst_base::Nid;

/// A desk for the commands on folders.
pub trait FolderDesk: Desk {
    /// What is known of objects before the line.
    fn flags(&self) -> &Flags
        ensures { IsAbout (Self.view self.now) (λ T. AreFlags (object_at T) result.now) };

    /// Whether a node stands at an id before the line.
    fn is_taken(&mut self, nid: Nid) -> Result<bool, Stop>
        ensures reads { Reads (Self.view self.old) (Self.view self.new) result }
        ensures answer { Answers (Self.view self.old) (λ b. b) (λ T c. Ok (is_taken T nid.bits)) result };

    /// Makes the row of a folder in its parent's table show it, as the line has both.
    fn mirror(&mut self, folder: Nid) -> Result<(), Stop>
        ensures drafts { Drafts (Self.view self.old) (Self.view self.new) result }
        ensures answer { Changes (Self.view self.old) (Self.view self.new) (λ T. mirrored T folder.bits) result };

    /// Counts a folder anew in which something came, went or changed, and makes its row show it. The folders then stand at these places.
    fn settle(&mut self, places: &Places, folder: Nid) -> Result<(), Stop>
        ensures drafts { Drafts (Self.view self.old) (Self.view self.new) result }
        ensures answer { Changes (Self.view self.old) (Self.view self.new) (λ T. settled T places.now folder.bits) result };
}

/// A desk for the commands on folders that has the counters of indices, by which new folders get their ids.
pub trait FolderMakingDesk: FolderDesk {
    /// The index of the next folder, which may be past the last one.
    fn next_folder(&mut self) -> Result<u64, Stop>
        ensures reads { Reads (Self.view self.old) (Self.view self.new) result }
        ensures answer { Answers (Self.view self.old) (λ n. n) (λ T c. Ok (next_index T 2 folder_kinds)) result };

    /// What changes come to with which a folder of this index comes; the folders then stand at these places. Refused where they pass a limit, and then where the index is past the last one.
    fn make(&mut self, places: Places, index: u64) -> Result<Coming, Stop>
        ensures reads { Reads (Self.view self.old) (Self.view self.new) result }
        ensures answer { Comes (Self.view self.old) (Self.view self.new) (λ T. making T places 2 index) result };
}
