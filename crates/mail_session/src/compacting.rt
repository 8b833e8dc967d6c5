//! A copy without holes of a file that would open.
ghost use Rattle.std.specs.Prelude.{◌≡◌, ◌<◌, ◌^◌, ℕ, [], IfErr, IfOk, OnOk, Err};
ghost use Rattle.pst_outside.specs.Calls.{Rose, Untouched};
ghost use Rattle.copy_part.specs.Keeps.{IsStable, KeepsSource};
ghost use Rattle.compactor.specs.Compacted.{IsCompacted};
ghost use Rattle.compactor.specs.Source.{IsSource};
ghost use Rattle.mail_searches.specs.Searching.{Searching};
ghost use Rattle.file_mending.specs.file_open.Opening.{ReadsFresh};
ghost use Rattle.mail_session.specs.Compact.{StopsCopying, of_compact, of_file};

use compactor::{CompactStop, Source, compact};
use file_mending::file_open::{FileRefusal, FileStop, check_file};
use file_planner::FilePlanner;
use pst_outside::{Failed, Outside, Part};
use std::alloc::Global;

/// Why no copy was made.
#[derive(Clone, Copy, Debug, PartialEq, Eq)]
pub(crate) enum CopyStop {
    /// Copy has bytes already.
    NotEmpty,
    /// The file is refused.
    Refused(FileRefusal),
    /// The copy would end there, past the most regions that a file may have.
    Large { eof: u64 },
    /// The disk failed.
    Fault,
    /// Something in the file isn't as it was found.
    Changed { ib: u64, stored: u64, computed: u64 },
    /// There was no memory.
    Memory,
}

/// The stop for one of the opening.
fn of_file(stop: FileStop) -> CopyStop
    ensures { result ≡ of_file stop }
{
    match stop {
        FileStop::Refused(refusal) => CopyStop::Refused(refusal),
        FileStop::Fault => CopyStop::Fault,
        FileStop::Changed {
            ib,
            stored,
            computed,
        } => CopyStop::Changed {
            ib,
            stored,
            computed,
        },
        FileStop::Memory => CopyStop::Memory,
    }
}

/// The stop for one of the making.
fn of_compact(stop: CompactStop) -> CopyStop
    ensures { result ≡ of_compact stop }
{
    match stop {
        CompactStop::Fault => CopyStop::Fault,
        CompactStop::Changed {
            ib,
            stored,
            computed,
        } => CopyStop::Changed {
            ib,
            stored,
            computed,
        },
        CompactStop::Large { eof } => CopyStop::Large { eof },
        CompactStop::Memory => CopyStop::Memory,
    }
}

/// Looks whether Copy has no bytes.
fn check_empty<W: Outside>(w: &mut W) -> Result<(), CopyStop>
    ensures empty { OnOk result ((W.view w.new).tells → (W.view w.new).here.copy ≡ []) }
    ensures stops { IfErr result (λ stop. StopsCopying stop (W.view w.old) (W.view w.new)) }
    ensures same { Untouched (W.view w.old) (W.view w.new) }
{
    match w.len(Part::Copy) {
        Ok(0) => Ok(()),
        Ok(_) => Err(CopyStop::NotEmpty),
        Err(Failed) => Err(CopyStop::Fault),
    }
}

/// What a copy wants to know of the file, if it would open.
fn find_source<W: Outside>(alloc: Global, w: &mut W) -> Result<Source, CopyStop>
    ensures source { IfOk result (λ source. (W.view w.new).tells → IsSource (W.view w.new).here source) }
    ensures numbers { IfOk result (λ source. source.next_page < 2 ^ 61) }
    ensures stops { IfErr result (λ stop. StopsCopying stop (W.view w.old) (W.view w.new)) }
    ensures same { Untouched (W.view w.old) (W.view w.new) }
{
    match check_file::<W, FilePlanner>(alloc, w) {
        Ok(file) => Ok(Source {
            header: file.header,
            next_block: file.next_block,
            next_page: file.next_page,
        }),
        Err(stop) => Err(of_file(stop)),
    }
}

/// Writes the copy of a file that was found.
fn copy_source<W: Outside>(alloc: Global, w: &mut W, source: &Source) -> Result<u64, CopyStop>
    requires source { (W.view w.old).tells → IsSource (W.view w.old).here source.now }
    requires empty { (W.view w.old).tells → (W.view w.old).here.copy ≡ [] }
    requires numbers { source.now.next_page < 2 ^ 61 }
    ensures keeps { KeepsSource (W.view w.old) (W.view w.new) }
    ensures stops { IfErr result (λ stop. StopsCopying stop (W.view w.old) (W.view w.new)) }
    ensures compacted { IfOk result (λ eof. (W.view w.new).tells → IsCompacted (W.view w.old).here source.now eof (W.view w.new).here.copy) }
    ensures stable { OnOk result (IsStable (W.view w.new)) }
{
    match compact(alloc, w, source) {
        Ok(eof) => Ok(eof),
        Err(stop) => Err(of_compact(stop)),
    }
}

/// Writes the file that counts without holes into Copy, which has no bytes, and answers where the copy ends. Main and Side are never written.
pub(crate) fn copy_file<W: Outside>(alloc: Global, w: &mut W) -> Result<u64, CopyStop>
    ensures keeps { KeepsSource (W.view w.old) (W.view w.new) }
    ensures stops { IfErr result (λ stop. StopsCopying stop (W.view w.old) (W.view w.new)) }
    ensures compacted { IfOk result (λ eof. (W.view w.new).tells → (source : Source) × IsCompacted (W.view w.old).here source eof (W.view w.new).here.copy) }
    ensures stable { OnOk result (IsStable (W.view w.new)) }
    // A copy that has bytes stays as it is.
    ensures occupied { (W.view w.old).tells → ((W.view w.old).here.copy ≡ [] → ⊥) → Untouched (W.view w.old) (W.view w.new) }
{
    check_empty(w)?;
    let source = find_source(alloc, w)?;
    copy_source(alloc, w, &source)
}
