//! What a store knows of its searches.
ghost use Rattle.std.specs.Prelude.{◌≡◌, IfOk};

use crate::following::Searches;
use crate::own::OwnFolders;
use std::alloc::{AllocError, Global};

/// What a store knows of its searches: its own search folders, and the searches that have criteria.
#[derive(Debug, Drop)]
pub struct KnownSearches {
    pub own: OwnFolders,
    pub searches: Searches,
}

impl KnownSearches {
    /// The same again.
    pub fn copy(&self, alloc: Global) -> Result<KnownSearches, AllocError>
        ensures own { IfOk result (λ k. k.own ≡ self.now.own) }
        ensures searches { IfOk result (λ k. k.searches ≡ self.now.searches) }
    {
        Ok(KnownSearches {
            own: self.own.copy(alloc)?,
            searches: self.searches.copy(alloc)?,
        })
    }
}
