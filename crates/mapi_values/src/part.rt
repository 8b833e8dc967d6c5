//! An attachment of a message.
use crate::props::Props;
use pst_base::{Nid, Subs};
use std::alloc::{AllocError, Global};

/// An attachment: its node below that of its message, its properties, and the subnodes that no value uses.
#[derive(Debug, Drop)]
pub struct Part {
    pub nid: Nid,
    pub props: Props,
    pub kept: Subs,
}

impl Part {
    ghost use Rattle.std.specs.Prelude.{◌≡◌, IfOk};

    /// The same attachment again.
    pub fn copy(&self, alloc: Global) -> Result<Part, AllocError>
        ensures { IfOk result (λ part. part ≡ self.now) }
    {
        Ok(Part {
            nid: self.nid,
            props: self.props.copy(alloc)?,
            kept: self.kept.copy(alloc)?,
        })
    }
}
