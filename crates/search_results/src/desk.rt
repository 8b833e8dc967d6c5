//! What the lists of searches ask of a desk, beside what the commands on folders ask.
ghost use Rattle.std.specs.FinMap as map;
ghost use Rattle.std.specs.Prelude.{◌≡◌, option_copied};
ghost use Rattle.mail_draft.specs.Listed.{listed_in};
ghost use Rattle.mail_draft.specs.Sight.{Answers, Reads};
ghost use Rattle.mail_tree.specs.Changing.{nothing, now_at};

use mail_draft::Stop;
use mail_folders::FolderDesk;
use mail_objects::Object;
use pst_base::Nid;

/// A desk for the lists of searches.
pub trait SearchDesk: FolderDesk {
    /// What the line has put at an id or removed from it, if anything.
    fn drafted(&self, nid: Nid) -> Option<&Option<Object>>
        ensures { option_copied result ≡ map.get (Self.view self.now).changed.objects nid.bits };

    /// The ids of the messages that the table at an id lists, before the line.
    fn message_ids_before(&mut self, table: Nid) -> Result<Vec<u32>, Stop>
        ensures reads { Reads (Self.view self.old) (Self.view self.new) result }
        ensures answer { Answers (Self.view self.old) (λ ids. ids.items) (λ T c. listed_in (now_at T nothing table.bits)) result };
}
