//! Why an edit of a row stops.
use std::alloc::AllocError;

/// Why a call gives nothing. What was added until then is named by nothing.
#[derive(Clone, Copy, Debug, PartialEq, Eq, Drop)]
pub enum RowStop<S> {
    /// The heap stopped.
    Heap(S),
    /// There was no memory.
    Memory,
    /// A value is too long for a heap, or one stands in a subnode: the table is to be laid anew.
    NeedsSubnode,
}

impl<S> From<AllocError> for RowStop<S> {
    ghost use Rattle.std.specs.Prelude.{◌≡◌};
    ghost use Rattle.row_edit.specs.declared.stop.RowStop.TheVariants.{Memory};

    ghost from_gives = { λ _ e. e ≡ Memory };

    fn from(_: AllocError) -> RowStop<S> {
        RowStop::Memory
    }
}
