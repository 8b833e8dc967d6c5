//! `look`: a session over a file that is only read.
ghost use Rattle.std.specs.Prelude.{◌≡◌};
ghost use Rattle.line_server.specs.declared.end.ServerEnd.{ServerEnd as Ends};
ghost use Rattle.mail_searches.specs.Searching.{Searching};
ghost use Rattle.mail_session.specs.Look.{KeepsReading, LookEnds, LookRuns, status_of_look};
ghost use Rattle.mail_session.specs.Looking.{TellsTree};

use crate::exit::{ChangedAt, Status};
use crate::file_texts::file_line;
use crate::info::say;
use crate::looking::Reader;
use file_filling::store_session::StoreStop;
use file_mending::file_open::{FileStop, look_file};
use file_planner::FilePlanner;
use line_server::{ServerEnd, serve};
use node_port::NodeReader;
use pst_outside::Outside;
use std::alloc::{AllocError, Global};

/// The status of a session that ended so.
fn status_of_look(end: ServerEnd<StoreStop>) -> Status
    ensures { result ≡ status_of_look end }
{
    match end {
        ServerEnd::Done => Status::Done,
        ServerEnd::Input => Status::Input,
        ServerEnd::Output => Status::Output,
        ServerEnd::Lines => Status::Lines,
        ServerEnd::Stopped(StoreStop::Disk) => Status::Disk,
        ServerEnd::Stopped(
            StoreStop::Changed {
                ib,
                stored,
                computed,
            },
        ) => Status::Changed(ChangedAt {
            ib,
            stored,
            computed,
        }),
    }
}

/// A session over a store that is only read: takes lines until the input ends, a line is `quit`, a device fails, something changed, or 2^32 lines were taken.
fn serve_reader<W: Outside, K: NodeReader<W> + Drop>(
    alloc: Global,
    reader: Reader<K>,
    world: &mut W,
) -> Status
    ensures keeps { KeepsReading (W.view world.old) (W.view world.new) result }
    ensures runs { (X : Searching) → TellsTree (K.holds reader.keeper (W.view world.old)) (K.last reader.keeper) reader.known reader.searches X → (W.view world.new).tells → LookRuns X (W.view world.old) (W.view world.new) result }
{
    let mut reader = reader;
    match serve(alloc, &mut reader, world) {
        Ok(end) => status_of_look(end),
        Err(AllocError) => Status::Memory,
    }
}

/// A session over the two files that only reads: says one reply to each line, or the line of the first refusal. Nothing is written, and the gate is left as it is.
pub fn look_lines<W: Outside>(alloc: Global, world: &mut W) -> Status
    ensures { LookEnds (W.view world.old) (W.view world.new) result }
{
    match look_file::<W, FilePlanner>(alloc, world) {
        Ok(opened) => {
            let reader = Reader {
                keeper: opened.keeper,
                known: opened.tree.known,
                searches: opened.tree.searches,
            };
            serve_reader(alloc, reader, world)
        }
        Err(FileStop::Refused(refusal)) => match file_line(alloc, refusal) {
            Ok(text) => say(world, text.as_bytes(), Status::Refused),
            Err(AllocError) => Status::Memory,
        },
        Err(FileStop::Fault) => Status::Disk,
        Err(
            FileStop::Changed {
                ib,
                stored,
                computed,
            },
        ) => Status::Changed(ChangedAt {
            ib,
            stored,
            computed,
        }),
        Err(FileStop::Memory) => Status::Memory,
    }
}
