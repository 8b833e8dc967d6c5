//! Where pages come from.
ghost use Rattle.std.specs.Prelude.{◌≡◌, ℕ, List, Option, Some, IfOk, IfErr};
ghost use Rattle.pst_base.specs.declared.ids.Bref.{Bref as Brefs};
ghost use Rattle.tree_edit.specs.Source.{Source, Later, SourceStops};

use pst_base::{Bref, MemOr, SourceStop};

/// A source of the contents of tree pages.
pub trait PageSource {
    /// What contracts see of it: the contents that it tells, and its two counts.
    ghost view: { Self → Source Self };

    /// The content of the page with this id at this place. `Failed` comes where the device failed, `Changed` where something isn't as the source found it before.
    fn page(&mut self, at: Bref) -> Result<[u8; 496], MemOr<SourceStop>>
        ensures later { Later (view self.old) (view self.new) }
        ensures found { IfOk result (λ body. (find : Brefs → Option (List ℕ)) → (view self.old).holds find → find at ≡ Some body) }
        ensures stopped { IfErr result (SourceStops (view self.old) (view self.new)) };
}
