//! `decode`: a copy of a file whose blocks are encoded, in which they aren't.
ghost use Rattle.std.specs.Prelude.{◌≡◌, IfOk};
ghost use Rattle.std.specs.String.{string_bytes};
ghost use Rattle.mail_session.specs.Decode.{DecodeEnds, decoded_line};

use crate::exit::{ChangedAt, Status};
use crate::info::say;
use crate::texts::refusal_line;
use file_decode::{DecodeStop, decode_file};
use file_layout::OpenStop;
use pst_outside::Outside;
use std::alloc::{AllocError, Global};
use std::fmt::Write;

/// The line of a copy that was made.
fn decoded_line(alloc: Global, count: u64) -> Result<String, AllocError>
    ensures { IfOk result (λ text. string_bytes text ≡ decoded_line count) }
{
    let mut text = String::new(alloc);
    writeln!(text, "decoded {count}")?;
    Ok(text)
}

/// Writes the file that counts into Copy with its data blocks decoded, and says how many they are, or the line of a refusal. Main and Side are never written.
pub fn say_decoded<W: Outside>(alloc: Global, world: &mut W) -> Status
    ensures { DecodeEnds (W.view world.old) (W.view world.new) result }
{
    match decode_file(alloc, world) {
        Ok(count) => match decoded_line(alloc, count) {
            Ok(text) => say(world, text.as_bytes(), Status::Done),
            Err(AllocError) => Status::Memory,
        },
        Err(DecodeStop::NotEmpty) => say(world, b"refused not-empty\n", Status::Refused),
        Err(DecodeStop::Reading(OpenStop::Refused(refusal))) => match refusal_line(alloc, refusal) {
            Ok(text) => say(world, text.as_bytes(), Status::Refused),
            Err(AllocError) => Status::Memory,
        },
        Err(DecodeStop::Reading(OpenStop::Fault)) => Status::Disk,
        Err(
            DecodeStop::Reading(
                OpenStop::Changed {
                    ib,
                    stored,
                    computed,
                },
            ),
        ) => Status::Changed(ChangedAt {
            ib,
            stored,
            computed,
        }),
        Err(DecodeStop::Reading(OpenStop::Memory)) => Status::Memory,
    }
}
