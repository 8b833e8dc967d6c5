//! `fill`: a large input.
ghost use Rattle.std.specs.Prelude.{◌≡◌, IfOk};
ghost use Rattle.std.specs.String.{string_bytes};
ghost use Rattle.file_filling.specs.store_session.Run.{refused};
ghost use Rattle.mail_session.specs.Fill.{FillEnds, HasText, SaysEnd, fill_status, filled_line};

use crate::exit::{ChangedAt, Status};
use crate::file_texts::file_line;
use crate::files::status_of_end;
use crate::info::say;
use command_text::{CommandRefusal, LastLine, Reply, reply_text};
use file_filling::{FileFill, FileRun, FillCounts, Stop, fill_file};
use file_planner::FilePlanner;
use pst_base::Bytes;
use pst_outside::Outside;
use std::alloc::{AllocError, Global};
use std::fmt::Write;

/// The line of what was made.
fn filled_line(alloc: Global, count: u16, counts: FillCounts) -> Result<String, AllocError>
    ensures { IfOk result (λ text. string_bytes text ≡ filled_line count counts) }
{
    let mut text = String::new(alloc);
    writeln!(
        text,
        "filled {count} listed {} bytes {}",
        counts.listed, counts.bytes
    )?;
    Ok(text)
}

/// The text of a refusal.
fn refusal_text(alloc: Global, refusal: CommandRefusal) -> Result<Bytes, AllocError>
    ensures { IfOk result (λ text. text ≡ refused refusal) }
{
    reply_text(
        alloc,
        &Reply::without_data(alloc, LastLine::Refused(refusal)),
    )
}

/// The text of an end, or the status of an end that has none.
fn end_text(alloc: Global, count: u16, end: Result<FillCounts, Stop>) -> Result<Bytes, Status>
    ensures { HasText count end result }
{
    match end {
        Ok(counts) => match filled_line(alloc, count, counts) {
            Ok(text) => Ok(Bytes::from_vec(text.into_bytes())),
            Err(AllocError) => Err(Status::Memory),
        },
        Err(Stop::Refused(refusal)) => match refusal_text(alloc, refusal) {
            Ok(text) => Ok(text),
            Err(AllocError) => Err(Status::Memory),
        },
        Err(Stop::Fault) => Err(Status::Disk),
        Err(
            Stop::Changed {
                ib,
                stored,
                computed,
            },
        ) => Err(Status::Changed(ChangedAt {
            ib,
            stored,
            computed,
        })),
        Err(Stop::Memory) => Err(Status::Memory),
    }
}

/// The status that the text of an end means.
fn fill_status(end: &Result<FillCounts, Stop>) -> Status
    ensures { result ≡ fill_status end.now }
{
    match end {
        Ok(_) => Status::Done,
        Err(_) => Status::Refused,
    }
}

/// Says what making a large input came to.
fn say_end<W: Outside>(
    alloc: Global,
    world: &mut W,
    count: u16,
    end: Result<FillCounts, Stop>,
) -> Status
    ensures { SaysEnd count end world.old world.new (W.view world.old) (W.view world.new) result }
{
    let meant = fill_status(&end);
    match end_text(alloc, count, end) {
        Ok(text) => say(world, text.as_slice(), meant),
        Err(status) => status,
    }
}

/// Makes a large input in the two files, and says what was counted of it, or the line of the first refusal.
pub fn say_filled<W: Outside>(alloc: Global, world: &mut W, seed: u32, count: u16) -> Status
    ensures { FillEnds seed count (W.view world.old) (W.view world.new) result }
{
    match fill_file::<W, FilePlanner>(alloc, world, seed, count) {
        FileFill::Unopened(run) => match run {
            FileRun::Refused(refusal) => match file_line(alloc, refusal) {
                Ok(text) => say(world, text.as_bytes(), Status::Refused),
                Err(AllocError) => Status::Memory,
            },
            FileRun::Ended(end) => status_of_end(end),
        },
        FileFill::Ended(end) => say_end(alloc, world, count, end),
    }
}
