//! `compact`: the same tree in a file without holes.
ghost use Rattle.std.specs.Prelude.{◌≡◌, IfOk};
ghost use Rattle.std.specs.String.{string_bytes};
ghost use Rattle.mail_session.specs.Compact.{CompactEnds, compacted_line, large_line};

use crate::compacting::{CopyStop, copy_file};
use crate::exit::{ChangedAt, Status};
use crate::file_texts::file_line;
use crate::info::say;
use pst_outside::Outside;
use std::alloc::{AllocError, Global};
use std::fmt::Write;

/// The line of a copy that was made.
fn compacted_line(alloc: Global, eof: u64) -> Result<String, AllocError>
    ensures { IfOk result (λ text. string_bytes text ≡ compacted_line eof) }
{
    let mut text = String::new(alloc);
    writeln!(text, "compacted {eof}")?;
    Ok(text)
}

/// The line of a copy that would be too large.
fn large_line(alloc: Global, eof: u64) -> Result<String, AllocError>
    ensures { IfOk result (λ text. string_bytes text ≡ large_line eof) }
{
    let mut text = String::new(alloc);
    writeln!(text, "refused large {eof}")?;
    Ok(text)
}

/// Writes the tree of the file that counts into Copy, without holes, and says where the copy ends, or the line of a refusal. Main and Side are never written.
pub fn say_compacted<W: Outside>(alloc: Global, world: &mut W) -> Status
    ensures { CompactEnds (W.view world.old) (W.view world.new) result }
{
    match copy_file(alloc, world) {
        Ok(eof) => match compacted_line(alloc, eof) {
            Ok(text) => say(world, text.as_bytes(), Status::Done),
            Err(AllocError) => Status::Memory,
        },
        Err(CopyStop::NotEmpty) => say(world, b"refused not-empty\n", Status::Refused),
        Err(CopyStop::Refused(refusal)) => match file_line(alloc, refusal) {
            Ok(text) => say(world, text.as_bytes(), Status::Refused),
            Err(AllocError) => Status::Memory,
        },
        Err(CopyStop::Large { eof }) => match large_line(alloc, eof) {
            Ok(text) => say(world, text.as_bytes(), Status::Refused),
            Err(AllocError) => Status::Memory,
        },
        Err(CopyStop::Fault) => Status::Disk,
        Err(
            CopyStop::Changed {
                ib,
                stored,
                computed,
            },
        ) => Status::Changed(ChangedAt {
            ib,
            stored,
            computed,
        }),
        Err(CopyStop::Memory) => Status::Memory,
    }
}
