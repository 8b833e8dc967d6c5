//! `info`: the header that counts.
ghost use Rattle.mail_session.specs.Info.{InfoEnds, Says};

use crate::exit::Status;
use crate::texts::{info_text, refusal_line};
use file_layout::{OpenStop, open_header};
use pst_outside::{Failed, Outside, say_all};
use std::alloc::{AllocError, Global};

/// Says a text, and answers the status that is meant, or that the output failed.
pub(crate) fn say<W: Outside>(world: &mut W, text: &[u8], status: Status) -> Status
    ensures { Says text.now status (W.view world.old) (W.view world.new) result }
{
    match say_all(world, text) {
        Ok(()) => status,
        Err(Failed) => Status::Output,
    }
}

/// Says the seven lines of the header that counts, or the first refusal. Writes nothing.
pub fn say_info<W: Outside>(alloc: Global, world: &mut W) -> Status
    ensures { InfoEnds (W.view world.old) (W.view world.new) result }
{
    match open_header(world) {
        Ok(opened) => match info_text(alloc, &opened.header, opened.gate_open) {
            Ok(text) => say(world, text.as_bytes(), Status::Done),
            Err(AllocError) => Status::Memory,
        },
        Err(OpenStop::Refused(refusal)) => match refusal_line(alloc, refusal) {
            Ok(text) => say(world, text.as_bytes(), Status::Refused),
            Err(AllocError) => Status::Memory,
        },
        Err(OpenStop::Fault) => Status::Disk,
        Err(OpenStop::Changed { .. } | OpenStop::Memory) => unreachable!(),
    }
}
