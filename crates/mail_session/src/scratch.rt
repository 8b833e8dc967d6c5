//! `scratch`: a session over a tree in memory.
ghost use Rattle.std.specs.Prelude.{◌≡◌};
ghost use Rattle.mail_session.specs.Scratch.{ScratchEnds, status_of};

use crate::exit::Status;
use crate::mailbox::{Mailbox, NoStop};
use line_server::{ServerEnd, serve};
use pst_outside::Outside;
use std::alloc::{AllocError, Global};

/// The status of a session that ended so.
fn status_of(end: ServerEnd<NoStop>) -> Status
    ensures { result ≡ status_of end }
{
    match end {
        ServerEnd::Done => Status::Done,
        ServerEnd::Input => Status::Input,
        ServerEnd::Output => Status::Output,
        ServerEnd::Lines => Status::Lines,
        ServerEnd::Stopped(never) => match never {},
    }
}

/// A session over a tree in memory: takes lines until the input ends, a line is `quit`, a device fails, or 2^32 lines were taken. Its answers ask nothing of the world.
pub fn serve_memory<W: Outside>(alloc: Global, world: &mut W) -> Status
    ensures ends { ScratchEnds (W.view world.old) (W.view world.new) result }
    ensures untouched { result ≡ Status.Memory → world.new ≡ world.old }
{
    let Ok(mut mailbox) = Mailbox::new(alloc) else {
        return Status::Memory;
    };
    match serve(alloc, &mut mailbox, world) {
        Ok(end) => status_of(end),
        Err(AllocError) => Status::Memory,
    }
}
