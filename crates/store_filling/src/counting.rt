//! What is counted at the end.
ghost use Rattle.std.specs.Prelude.{◌≡◌, ◌≤◌, ◌<◌, ◌+◌, ◌-◌, ◌^◌, Bool, min, IfErr};
ghost use Rattle.mail_reading.specs.mail_draft.Answers.{IsCaused, Looks};
ghost use Rattle.mail_searches.specs.Searching.{Searching};
ghost use Rattle.search_lists.specs.Order.{InOrder};
ghost use Rattle.store_session.specs.search_store.Planning.{StoresSearches};
ghost use Rattle.store_filling.specs.Counts.{CountsSo, ListsSo, message_in, messages_in, size_in, sizes_in};

use crate::commands::Made;
use command_text::{Command, DataLine, DataLines};
use mail_reading::ask;
use mail_reading::mail_draft::Stop;
use mail_searches::KnownSearches;
use mail_tree::Known;
use node_port::NodeReader;
use pst_base::Nid;
use pst_outside::Outside;
use std::alloc::Global;

/// What is counted of a large input: the messages that its search lists, and the bytes that the messages of its folder tell.
#[derive(Clone, Copy, Debug, PartialEq, Eq, Drop)]
pub struct FillCounts {
    pub listed: u64,
    pub bytes: u64,
}

/// 1 for the line of a message.
fn message_in(line: &DataLine) -> u64
    ensures is { result ≡ message_in line.now }
    ensures bound { result ≤ 1 }
{
    match line {
        DataLine::Message { .. } => 1,
        _ => 0,
    }
}

/// How many of these lines are of a message.
fn messages_in(lines: &[DataLine]) -> u64
    ensures { result ≡ messages_in lines.now }
{
    let mut count = 0;
    for line in lines {
        count += message_in(line);
    }
    count
}

/// The size that the line of a message tells.
fn size_in(line: &DataLine) -> u64
    ensures { result ≡ size_in line.now }
{
    match line {
        DataLine::Message { size, .. } => u64::from(*size),
        _ => 0,
    }
}

/// The sizes that these lines tell, in one sum, which stays at its greatest once it is there.
fn sizes_in(lines: &[DataLine]) -> u64
    ensures { result ≡ min (sizes_in lines.now) (2 ^ 64 - 1) }
{
    let mut sum: u64 = 0;
    for line in lines {
        sum = sum.saturating_add(size_in(line));
    }
    sum
}

/// The lines that `ls` answers of a folder.
fn lines_of<W: Outside, K: NodeReader<W>>(
    alloc: Global,
    keeper: &mut K,
    w: &mut W,
    known: &Known,
    searches: &KnownSearches,
    folder: Nid,
) -> Result<DataLines, Stop>
    ensures answer { (tidy : Bool) (X : Searching) → StoresSearches (K.holds keeper.old (W.view w.old)) (K.last keeper.old) known.now searches.now X → InOrder tidy X → ListsSo X folder result }
    ensures looks { Looks (K.holds keeper.old (W.view w.old)) (K.holds keeper.new (W.view w.new)) (K.last keeper.old) (K.last keeper.new) (K.room keeper.old) (K.room keeper.new) (W.view w.old) (W.view w.new) }
    ensures cause { IfErr result (IsCaused K.has_disk (W.view w.old).disk_faults (W.view w.new).disk_faults) }
{
    match ask(
        alloc,
        keeper,
        w,
        known,
        searches,
        &Command::ListFolder { folder },
    ) {
        Ok(coming) => {
            let outcome = coming.outcome;
            let reply = outcome.reply;
            Ok(reply.lines)
        }
        Err(stop) => Err(stop),
    }
}

/// Counts the messages that `ls` lists of the search, and sums the sizes of those that it lists of the folder.
pub(crate) fn count_filled<W: Outside, K: NodeReader<W>>(
    alloc: Global,
    keeper: &mut K,
    w: &mut W,
    known: &Known,
    searches: &KnownSearches,
    made: Made,
) -> Result<FillCounts, Stop>
    ensures answer { (tidy : Bool) (X : Searching) → StoresSearches (K.holds keeper.old (W.view w.old)) (K.last keeper.old) known.now searches.now X → InOrder tidy X → CountsSo X made result }
    ensures looks { Looks (K.holds keeper.old (W.view w.old)) (K.holds keeper.new (W.view w.new)) (K.last keeper.old) (K.last keeper.new) (K.room keeper.old) (K.room keeper.new) (W.view w.old) (W.view w.new) }
    ensures cause { IfErr result (IsCaused K.has_disk (W.view w.old).disk_faults (W.view w.new).disk_faults) }
{
    let listed = match lines_of(alloc, keeper, w, known, searches, made.search) {
        Ok(lines) => messages_in(lines.as_slice()),
        Err(stop) => return Err(stop),
    };
    match lines_of(alloc, keeper, w, known, searches, made.folder) {
        Ok(lines) => Ok(FillCounts {
            listed,
            bytes: sizes_in(lines.as_slice()),
        }),
        Err(stop) => Err(stop),
    }
}
