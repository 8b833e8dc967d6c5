//! What standard error says: the word of a status, and behind it a line for a person.
use crate::words::word;
use file_world::{Cause, Device, FileWorld};
use mail_session::{ChangedAt, Exit};
use pst_outside::{Outside, Part};
use std::{io, str};

/// The forms of the command line.
const FORMS: &str =
    "usage: pstore info|nodes|look|run|mend FILE, pstore new FILE NAME, pstore fill FILE SEED COUNT, pstore decode|compact FILE TO, or pstore scratch";

/// The text of an exit; nothing where it needs no explanation.
pub(crate) fn report(
    rt: &HostRuntime,
    words: &[String],
    world: &mut FileWorld<HostRuntime>,
    exit: Exit,
) -> io::Result<()> {
    match exit.status {
        3 => report_refusal(rt, words, world),
        4 => report_failure(rt, "disk", words, world.cause()),
        5 => report_failure(rt, "input", words, world.cause()),
        6 => report_failure(rt, "output", words, world.cause()),
        9 => report_change(rt, exit.changed),
        status => report_status(rt, status),
    }
}

/// The text of a status that no file has a part in.
pub(crate) fn report_status(rt: &HostRuntime, status: u8) -> io::Result<()> {
    match status {
        2 => eprintln!(rt; "words\n{FORMS}"),
        7 => eprintln!(rt; "memory"),
        8 => eprintln!(rt; "lines"),
        _ => Ok(()),
    }
}

/// The word of a device, and what failed on it.
fn report_failure(
    rt: &HostRuntime,
    device: &str,
    words: &[String],
    cause: Option<&Cause>,
) -> io::Result<()> {
    eprintln!(rt; "{device}")?;
    let Some(cause) = cause else {
        return Ok(());
    };
    let file = word(words, 1);
    match cause.device {
        Device::Input => eprintln!(rt; "standard input: {}", cause.trouble),
        Device::Output => eprintln!(rt; "standard output: {}", cause.trouble),
        Device::Disk(Part::Main) => eprintln!(rt; "{file}: {}", cause.trouble),
        Device::Disk(Part::Side) => eprintln!(rt; "{file}.gate: {}", cause.trouble),
        Device::Disk(Part::Copy) => eprintln!(rt; "{}: {}", word(words, 2), cause.trouble),
    }
}

/// What changed while it was read.
fn report_change(rt: &HostRuntime, changed: Option<ChangedAt>) -> io::Result<()> {
    match changed {
        Some(at) => eprintln!(rt;
            "changed 0x{:x} 0x{:x} 0x{:x}\nwhat was read before isn't there any more: another program writes to the file, or its disk fails",
            at.ib, at.stored, at.computed
        ),
        None => Ok(()),
    }
}

/// What to do about a refusal.
fn report_refusal(
    rt: &HostRuntime,
    words: &[String],
    world: &mut FileWorld<HostRuntime>,
) -> io::Result<()> {
    let file = word(words, 1);
    let said = str::from_utf8(world.front()).unwrap_or("");
    match said.split_whitespace().nth(1) {
        Some("not-empty") if matches!(word(words, 0), "decode" | "compact") => eprintln!(rt;
            "{}: it has bytes: a copy needs a name that is free",
            word(words, 2)
        ),
        Some("not-empty") => report_not_empty(rt, file, world),
        Some("encoded") if word(words, 0) == "decode" => eprintln!(rt;
            "{file}: its blocks are encoded in a way that isn't known: Outlook saves it without where encryption is set to none"
        ),
        Some(refusal) => match advice(refusal, world.is_missing()) {
            Some(advice) => eprintln!(rt; "{file}: {advice}"),
            None => Ok(()),
        },
        None => Ok(()),
    }
}

/// Which of the two files has bytes.
fn report_not_empty(
    rt: &HostRuntime,
    file: &str,
    world: &mut FileWorld<HostRuntime>,
) -> io::Result<()> {
    match world.len(Part::Main) {
        Ok(0) => eprintln!(rt;
            "{file}.gate: it has bytes, and belongs to a store of that name: move it back to its file, or away"
        ),
        _ => eprintln!(rt; "{file}: it has bytes: a new store needs a name that is free"),
    }
}

/// What a refusal means for a person, by its first word.
fn advice(refusal: &str, is_missing: bool) -> Option<&'static str> {
    match refusal {
        "empty" if is_missing => Some("there is no such file"),
        "empty" => Some("it has no bytes: the words `new FILE NAME` lay a store in it"),
        "gate" => Some("FILE.gate isn't the gate of a store: see which file took its name"),
        "version" => Some(
            "it isn't a Unicode .pst file of version 23: Outlook can copy its folders into a new one",
        ),
        "encoded" => Some(
            "its blocks are encoded, as Outlook does: the words `decode FILE TO` write a copy in which they aren't",
        ),
        "truncated" => Some("it is shorter than its header says: a copy of it was cut short"),
        "stale" => Some(
            "another program changed what this search folder lists: the words `mend FILE` make its list anew, and `look FILE` reads the file as it is",
        ),
        "ids" => Some(
            "its numbers for blocks or pages are used up: the words `look FILE` read the file all the same",
        ),
        "rows" => Some(
            "this search folder would list more than one may: its criteria have to ask for less",
        ),
        "full" => Some(
            "it has no room left for what mending writes: the words `compact FILE TO` write its copy without holes",
        ),
        "busy" => Some("another session is at work on it: wait until that has ended"),
        _ => None,
    }
}
