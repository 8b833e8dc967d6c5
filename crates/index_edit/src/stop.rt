//! Why an edit of a row index stops.
use std::alloc::AllocError;

/// Why a call gives nothing. What was added until then is named by nothing.
#[derive(Clone, Copy, Debug, PartialEq, Eq, Drop)]
pub enum IndexStop<S> {
    /// The heap stopped.
    Heap(S),
    /// There was no memory.
    Memory,
    /// The table is to be laid anew: its index has more than two levels, or an item would be too long.
    Anew,
    /// What stands there is no row index.
    NoIndex,
}

impl<S> From<AllocError> for IndexStop<S> {
    ghost use Rattle.std.specs.Prelude.{◌≡◌};
    ghost use Rattle.index_edit.specs.declared.stop.IndexStop.TheVariants.{Memory};

    ghost from_gives = { λ _ e. e ≡ Memory };

    fn from(_: AllocError) -> IndexStop<S> {
        IndexStop::Memory
    }
}
