//! Why an opening gives nothing.
use file_layout::{OpenRefusal, OpenStop};
use node_port::KeepStop;
use pst_outside::Failed;
use std::alloc::AllocError;
use store_open::{TreeRefusal, TreeStop};

/// Why a file is refused. The bytes never change by it.
#[derive(Clone, Copy, Debug, PartialEq, Eq)]
pub enum FileRefusal {
    /// By its header, its pages, blocks or places.
    Scan(OpenRefusal),
    /// By its folders, tables, messages and searches.
    Tree(TreeRefusal),
    /// The number of the next block or page is 2^61 or above.
    Ids,
}

/// Why an opening gives nothing.
#[derive(Clone, Copy, Debug, PartialEq, Eq)]
pub enum FileStop {
    /// The file is refused.
    Refused(FileRefusal),
    /// A call on the disk failed.
    Fault,
    /// What stands at the offset `ib` isn't as it was found before: the two numbers that the check compared.
    Changed { ib: u64, stored: u64, computed: u64 },
    /// There was no memory.
    Memory,
}

impl From<Failed> for FileStop {
    ghost use Rattle.std.specs.Prelude.{◌≡◌};
    ghost use Rattle.file_open.specs.declared.stops.FileStop.TheVariants.{Fault};

    ghost from_gives = { λ _ e. e ≡ Fault };

    fn from(_: Failed) -> FileStop {
        FileStop::Fault
    }
}

impl From<AllocError> for FileStop {
    ghost use Rattle.std.specs.Prelude.{◌≡◌};
    ghost use Rattle.file_open.specs.declared.stops.FileStop.TheVariants.{Memory};

    ghost from_gives = { λ _ e. e ≡ Memory };

    fn from(_: AllocError) -> FileStop {
        FileStop::Memory
    }
}

impl From<OpenStop> for FileStop {
    ghost use Rattle.std.specs.Prelude.{◌≡◌};
    ghost use Rattle.file_open.specs.Stops.{of_scan};

    ghost from_gives = { λ stop e. e ≡ of_scan stop };

    fn from(stop: OpenStop) -> FileStop {
        match stop {
            OpenStop::Refused(refusal) => FileStop::Refused(FileRefusal::Scan(refusal)),
            OpenStop::Fault => FileStop::Fault,
            OpenStop::Changed {
                ib,
                stored,
                computed,
            } => FileStop::Changed {
                ib,
                stored,
                computed,
            },
            OpenStop::Memory => FileStop::Memory,
        }
    }
}

impl From<TreeStop> for FileStop {
    ghost use Rattle.std.specs.Prelude.{◌≡◌};
    ghost use Rattle.file_open.specs.Stops.{of_tree};

    ghost from_gives = { λ stop e. e ≡ of_tree stop };

    fn from(stop: TreeStop) -> FileStop {
        match stop {
            TreeStop::Refused(refusal) => FileStop::Refused(FileRefusal::Tree(refusal)),
            TreeStop::Kept(KeepStop::Fault) => FileStop::Fault,
            TreeStop::Kept(
                KeepStop::Changed {
                    ib,
                    stored,
                    computed,
                },
            ) => FileStop::Changed {
                ib,
                stored,
                computed,
            },
            TreeStop::Kept(KeepStop::Memory) => FileStop::Memory,
        }
    }
}
