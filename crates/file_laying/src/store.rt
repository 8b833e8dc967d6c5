//! What is asked of a planner that is made of what was found of a file.
ghost use Rattle.std.specs.Prelude.{◌≡◌, [], IfOk};
ghost use Rattle.pst_outside.specs.World.{Image};
ghost use Rattle.file_blocks.specs.Blocks.{file_of};
ghost use Rattle.file_scan.specs.Found.{IsFound};

use file_scan::FoundFile;
use pst_commit::NodeStore;
use pst_outside::Outside;
use std::alloc::{AllocError, Global};

/// A planner that can be made of what a scan has found.
pub trait FoundStore<W: Outside>: NodeStore<W> {
    /// Takes over what a scan found of a file. The error: memory ran out.
    fn from_found(alloc: Global, found: FoundFile) -> Result<Self, AllocError>
        ensures known { IfOk result (λ s. (image : Image) → IsFound image found → Self.knows s found.header (file_of image)) }
        ensures no_pins { IfOk result (λ s. Self.held s ≡ []) };
}
