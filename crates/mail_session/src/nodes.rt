//! `nodes`: the nodes of a file.
ghost use Rattle.mail_session.specs.Nodes.{NodesEnds};

use crate::exit::{ChangedAt, Status};
use crate::info::say;
use crate::texts::{nodes_text, refusal_line};
use file_layout::OpenStop;
use file_scan::scan_nodes;
use pst_outside::Outside;
use std::alloc::{AllocError, Global};

/// Says a line for each node, ascending by id, and how many they are, or the line of a refusal. Writes nothing.
pub fn say_nodes<W: Outside>(alloc: Global, world: &mut W) -> Status
    ensures { NodesEnds (W.view world.old) (W.view world.new) result }
{
    match scan_nodes(alloc, world) {
        Ok(nodes) => match nodes_text(alloc, nodes.as_slice()) {
            Ok(text) => say(world, text.as_bytes(), Status::Done),
            Err(AllocError) => Status::Memory,
        },
        Err(OpenStop::Refused(refusal)) => match refusal_line(alloc, refusal) {
            Ok(text) => say(world, text.as_bytes(), Status::Refused),
            Err(AllocError) => Status::Memory,
        },
        Err(OpenStop::Fault) => Status::Disk,
        Err(
            OpenStop::Changed {
                ib,
                stored,
                computed,
            },
        ) => Status::Changed(ChangedAt {
            ib,
            stored,
            computed,
        }),
        Err(OpenStop::Memory) => Status::Memory,
    }
}
