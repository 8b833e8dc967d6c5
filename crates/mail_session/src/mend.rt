//! `mend`: searches whose lists another program made stale, or whose criteria objects are of the first version.
ghost use Rattle.std.specs.Prelude.{◌≡◌, IfOk};
ghost use Rattle.std.specs.String.{string_bytes};
ghost use Rattle.mail_session.specs.Mend.{MendEnds, SaysEnd, SaysStop, mended_line, stop_line};

use crate::exit::{ChangedAt, Status};
use crate::file_texts::file_line;
use crate::info::say;
use file_mending::{FileMend, MendStop, Mended, mend_file};
use file_planner::FilePlanner;
use pst_outside::Outside;
use std::alloc::{AllocError, Global};
use std::fmt::Write;

/// The line of how many searches were mended.
fn mended_line(alloc: Global, mended: Mended) -> Result<String, AllocError>
    ensures { IfOk result (λ text. string_bytes text ≡ mended_line mended) }
{
    let mut text = String::new(alloc);
    writeln!(text, "mended {} migrated {}", mended.stale, mended.migrated)?;
    Ok(text)
}

/// The line of a refusal at which mending stopped; no other stop has one.
fn stop_line(alloc: Global, stop: MendStop) -> Result<String, AllocError>
    ensures { IfOk result (λ text. string_bytes text ≡ stop_line stop) }
{
    let mut text = String::new(alloc);
    match stop {
        MendStop::Rows(search) => writeln!(text, "refused rows 0x{:x}", search.bits)?,
        MendStop::Full { free, need } => writeln!(text, "refused full {free} {need}")?,
        MendStop::Ids => writeln!(text, "refused ids")?,
        MendStop::Fault | MendStop::Changed { .. } | MendStop::Memory => {}
    }
    Ok(text)
}

/// Says the refusal at which mending stopped, and answers the status of the stop.
fn say_stop<W: Outside>(alloc: Global, world: &mut W, stop: MendStop) -> Status
    ensures { SaysStop stop world.old world.new (W.view world.old) (W.view world.new) result }
{
    match stop {
        MendStop::Rows(_) | MendStop::Full { .. } | MendStop::Ids => match stop_line(alloc, stop) {
            Ok(text) => say(world, text.as_bytes(), Status::Refused),
            Err(AllocError) => Status::Memory,
        },
        MendStop::Fault => Status::Disk,
        MendStop::Changed {
            ib,
            stored,
            computed,
        } => Status::Changed(ChangedAt {
            ib,
            stored,
            computed,
        }),
        MendStop::Memory => Status::Memory,
    }
}

/// Says what mending came to.
fn say_end<W: Outside>(alloc: Global, world: &mut W, end: Result<Mended, MendStop>) -> Status
    ensures { SaysEnd end world.old world.new (W.view world.old) (W.view world.new) result }
{
    match end {
        Ok(mended) => match mended_line(alloc, mended) {
            Ok(text) => say(world, text.as_bytes(), Status::Done),
            Err(AllocError) => Status::Memory,
        },
        Err(stop) => say_stop(alloc, world, stop),
    }
}

/// Mends the searches of the two files, and says how many, or the line of the first refusal, with the searches before it mended.
pub fn say_mended<W: Outside>(alloc: Global, world: &mut W) -> Status
    ensures { MendEnds (W.view world.old) (W.view world.new) result }
{
    match mend_file::<W, FilePlanner>(alloc, world) {
        FileMend::Refused(refusal) => match file_line(alloc, refusal) {
            Ok(text) => say(world, text.as_bytes(), Status::Refused),
            Err(AllocError) => Status::Memory,
        },
        FileMend::Ended(end) => say_end(alloc, world, end),
    }
}
