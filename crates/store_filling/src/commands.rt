//! The commands, one after another.
ghost use Rattle.std.specs.Prelude.{◌≡◌, ◌<◌, ◌+◌, ◌^◌, IfOk};
ghost use Rattle.store_filling.specs.Commands.{fill_command, id_of, made_after};

use crate::places::FillPlaces;
use bulk_maker::{criteria_command, folder_command, message_command, search_command};
use command_text::{Command, LastLine, Reply};
use pst_base::Nid;
use std::alloc::{AllocError, Global};

/// What the first commands made, which the further ones name: the folder of the messages and the search over it. Each is 0 before it is made.
#[derive(Clone, Copy, Debug, PartialEq, Eq)]
pub struct Made {
    pub folder: Nid,
    pub search: Nid,
}

/// The command at a place, counted from 0.
pub(crate) fn command_at(
    alloc: Global,
    places: FillPlaces,
    seed: u32,
    place: u32,
    made: Made,
) -> Result<Command, AllocError>
    ensures { IfOk result (λ command. command ≡ fill_command places seed place made) }
{
    match place {
        0 => folder_command(alloc, places.folder, seed),
        1 => search_command(alloc, places.search, seed),
        2 => criteria_command(alloc, made.search, made.folder),
        _ => message_command(alloc, made.folder, seed, place - 3),
    }
}

/// The id that a reply tells of what was made; 0 where it tells none.
fn id_of(last: &LastLine) -> Nid
    ensures { result ≡ id_of last.now }
{
    match last {
        LastLine::Made(id) => *id,
        _ => Nid { bits: 0 },
    }
}

/// What was made, after the reply to the command at a place.
pub(crate) fn made_after(place: u32, reply: &Reply, made: Made) -> Made
    ensures { result ≡ made_after place reply.now made }
{
    match place {
        0 => Made {
            folder: id_of(&reply.last),
            ..made
        },
        1 => Made {
            search: id_of(&reply.last),
            ..made
        },
        _ => made,
    }
}
