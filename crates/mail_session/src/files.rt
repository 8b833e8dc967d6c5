//! `run` and `new`: a session over a file, and the making of one.
ghost use Rattle.std.specs.Prelude.{◌≡◌};
ghost use Rattle.mail_session.specs.Files.{NewEnds, RunEnds, status_of_end};

use crate::exit::{ChangedAt, Status};
use crate::file_texts::file_line;
use crate::info::say;
use file_filling::file_session::{FileMade, FileRun, make_file, run_file};
use file_filling::store_session::SessionEnd;
use file_planner::FilePlanner;
use mapi_values::Units;
use pst_outside::Outside;
use std::alloc::{AllocError, Global};

/// The status of a session that ended so.
pub(crate) fn status_of_end(end: SessionEnd) -> Status
    ensures { result ≡ status_of_end end }
{
    match end {
        SessionEnd::Done => Status::Done,
        SessionEnd::Input => Status::Input,
        SessionEnd::Output => Status::Output,
        SessionEnd::Lines => Status::Lines,
        SessionEnd::Disk => Status::Disk,
        SessionEnd::Changed {
            ib,
            stored,
            computed,
        } => Status::Changed(ChangedAt {
            ib,
            stored,
            computed,
        }),
        SessionEnd::Memory => Status::Memory,
    }
}

/// A session over the two files: says one reply to each line, or the line of the first refusal.
pub fn run_lines<W: Outside>(alloc: Global, world: &mut W) -> Status
    ensures { RunEnds (W.view world.old) (W.view world.new) result }
{
    match run_file::<W, FilePlanner>(alloc, world) {
        FileRun::Refused(refusal) => match file_line(alloc, refusal) {
            Ok(text) => say(world, text.as_bytes(), Status::Refused),
            Err(AllocError) => Status::Memory,
        },
        FileRun::Ended(end) => status_of_end(end),
    }
}

/// Lays a new store of a name in the two files, which are empty, and says that it is made.
pub fn make<W: Outside>(alloc: Global, world: &mut W, name: &Units) -> Status
    ensures { NewEnds name.now (W.view world.old) (W.view world.new) result }
{
    match make_file::<W, FilePlanner>(alloc, world, name) {
        FileMade::Made => say(world, b"made\n", Status::Done),
        FileMade::NotEmpty => say(world, b"refused not-empty\n", Status::Refused),
        FileMade::Disk => Status::Disk,
        FileMade::Changed {
            ib,
            stored,
            computed,
        } => Status::Changed(ChangedAt {
            ib,
            stored,
            computed,
        }),
        // A file without nodes has room and numbers for a new store. No clause says so, and a store without them isn't made.
        FileMade::Memory | FileMade::Full { .. } | FileMade::IdsSpent => Status::Memory,
    }
}
