//! The store of a session that only reads, as what answers lines.
ghost use Rattle.std.specs.Prelude.{◌≡◌, IfErr, IfOk, Ok};
ghost use Rattle.pst_outside.specs.Calls.{Untouched};
ghost use Rattle.line_server.specs.Spoken.{spoken_text};
ghost use Rattle.session_lines.specs.declared.line.SessionLine.TheVariants.{Command as StoreCommand, Embedded};
ghost use Rattle.mail_session.specs.Looking.{ReaderAnswers, ReaderSays, ReaderStops, TellsTree, reads_inside};

use command_text::{Command, CommandRefusal, EmbeddedCommand};
use file_filling::mail_reading::ask;
use file_filling::pinned_session::mail_embedding::{Meaning, mean};
use file_filling::store_session::{StoreStop, refusal_spoken, reply_spoken, stopped};
use line_server::{LineAnswerer, Spoken};
use mail_searches::KnownSearches;
use mail_tree::Known;
use node_port::NodeReader;
use pst_base::MemOr;
use pst_outside::Outside;
use session_lines::{SessionLine, read_session_line};
use std::alloc::Global;

/// A store that is only read: what tells its nodes, and what is known of their tree and its searches beside them.
#[derive(Drop)]
pub(crate) struct Reader<K> {
    pub(crate) keeper: K,
    pub(crate) known: Known,
    pub(crate) searches: KnownSearches,
}

/// Answers a command: one that only reads by its reply, and any other by saying that it is no line.
fn answer_command<W: Outside, K: NodeReader<W>>(
    alloc: Global,
    reader: &mut Reader<K>,
    world: &mut W,
    command: &Command,
) -> Result<Spoken, StoreStop>
    ensures says { IfOk result (λ spoken. ReaderSays (TellsTree (K.holds reader.old.keeper (W.view world.old)) (K.last reader.old.keeper) reader.old.known reader.old.searches) (TellsTree (K.holds reader.new.keeper (W.view world.new)) (K.last reader.new.keeper) reader.new.known reader.new.searches)
        (W.view world.old) (W.view world.new) (Ok (StoreCommand command.now)) (spoken_text spoken)) }
    ensures stops { IfErr result (ReaderStops (TellsTree (K.holds reader.old.keeper (W.view world.old)) (K.last reader.old.keeper) reader.old.known reader.old.searches) (W.view world.old) (W.view world.new)) }
    ensures same { Untouched (W.view world.old) (W.view world.new) }
{
    match ask(
        alloc,
        &mut reader.keeper,
        world,
        &reader.known,
        &reader.searches,
        command,
    ) {
        Ok(coming) => Ok(reply_spoken(alloc, &coming.outcome.reply)),
        Err(stop) => stopped(alloc, stop),
    }
}

/// Whether a line on the message in an attachment only reads it.
fn reads_inside(line: &EmbeddedCommand) -> bool
    ensures { result ≡ reads_inside line.now }
{
    match line {
        EmbeddedCommand::List { .. } | EmbeddedCommand::Get { .. } => true,
        EmbeddedCommand::Embed { .. }
        | EmbeddedCommand::Set { .. }
        | EmbeddedCommand::Unset { .. } => false,
    }
}

/// Answers a line on the message in an attachment: one that only reads by what it comes to, and any other by saying that it is no line.
fn answer_inside<W: Outside, K: NodeReader<W>>(
    alloc: Global,
    reader: &mut Reader<K>,
    world: &mut W,
    line: &EmbeddedCommand,
) -> Result<Spoken, StoreStop>
    ensures says { IfOk result (λ spoken. ReaderSays (TellsTree (K.holds reader.old.keeper (W.view world.old)) (K.last reader.old.keeper) reader.old.known reader.old.searches) (TellsTree (K.holds reader.new.keeper (W.view world.new)) (K.last reader.new.keeper) reader.new.known reader.new.searches)
        (W.view world.old) (W.view world.new) (Ok (Embedded line.now)) (spoken_text spoken)) }
    ensures stops { IfErr result (ReaderStops (TellsTree (K.holds reader.old.keeper (W.view world.old)) (K.last reader.old.keeper) reader.old.known reader.old.searches) (W.view world.old) (W.view world.new)) }
    ensures same { Untouched (W.view world.old) (W.view world.new) }
{
    if !reads_inside(line) {
        return Ok(refusal_spoken(alloc, CommandRefusal::Line));
    }
    match mean(alloc, &mut reader.keeper, world, &reader.known, line) {
        Ok(Meaning::Replies(reply)) => Ok(reply_spoken(alloc, &reply)),
        // (a line that only reads becomes no command)
        Ok(Meaning::Becomes(_)) => Ok(refusal_spoken(alloc, CommandRefusal::Line)),
        Err(stop) => stopped(alloc, stop),
    }
}

/// Answers a line over a store that is only read: with the reply of a line that only reads, and to any other line that it is none, whatever else is wrong with it.
///
/// An `Err` comes where the disk failed, or something isn't as it was found before; the latter never of a store that has a tree.
fn answer_look<W: Outside, K: NodeReader<W>>(
    alloc: Global,
    reader: &mut Reader<K>,
    world: &mut W,
    bytes: &[u8],
) -> Result<Spoken, StoreStop>
    ensures answers { IfOk result (λ spoken. ReaderAnswers (TellsTree (K.holds reader.old.keeper (W.view world.old)) (K.last reader.old.keeper) reader.old.known reader.old.searches) (TellsTree (K.holds reader.new.keeper (W.view world.new)) (K.last reader.new.keeper) reader.new.known reader.new.searches)
        (W.view world.old) (W.view world.new) bytes.now (spoken_text spoken)) }
    ensures stops { IfErr result (ReaderStops (TellsTree (K.holds reader.old.keeper (W.view world.old)) (K.last reader.old.keeper) reader.old.known reader.old.searches) (W.view world.old) (W.view world.new)) }
    ensures same { Untouched (W.view world.old) (W.view world.new) }
{
    match read_session_line(alloc, bytes) {
        Ok(SessionLine::Command(command)) => answer_command(alloc, reader, world, &command),
        Ok(SessionLine::Embedded(line)) => answer_inside(alloc, reader, world, &line),
        Ok(SessionLine::Pin) => Ok(refusal_spoken(alloc, CommandRefusal::Line)),
        Ok(SessionLine::At { .. }) => Ok(refusal_spoken(alloc, CommandRefusal::Line)),
        Ok(SessionLine::Unpin { .. }) => Ok(refusal_spoken(alloc, CommandRefusal::Line)),
        Ok(SessionLine::OpenView { .. }) => Ok(refusal_spoken(alloc, CommandRefusal::Line)),
        Ok(SessionLine::ShowView { .. }) => Ok(refusal_spoken(alloc, CommandRefusal::Line)),
        Ok(SessionLine::CloseView { .. }) => Ok(refusal_spoken(alloc, CommandRefusal::Line)),
        Err(MemOr::Refused(_)) => Ok(refusal_spoken(alloc, CommandRefusal::Line)),
        Err(MemOr::Memory) => Ok(Spoken::NoMemory),
    }
}

impl<W: Outside, K: NodeReader<W>> LineAnswerer<W> for Reader<K> {
    type Stop = StoreStop;

    ghost use Rattle.mail_session.specs.Looking.{ReaderAnswers, ReaderStops, TellsTree};

    ghost answers = { λ a v bytes said b w. ReaderAnswers (TellsTree (K.holds a.keeper (W.view v)) (K.last a.keeper) a.known a.searches) (TellsTree (K.holds b.keeper (W.view w)) (K.last b.keeper) b.known b.searches) (W.view v) (W.view w) bytes said };

    ghost stops = { λ a v bytes stop b w. ReaderStops (TellsTree (K.holds a.keeper (W.view v)) (K.last a.keeper) a.known a.searches) (W.view v) (W.view w) stop };

    fn answer(&mut self, alloc: Global, world: &mut W, line: &[u8]) -> Result<Spoken, StoreStop> {
        answer_look(alloc, self, world, line)
    }
}
