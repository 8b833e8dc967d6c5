//! A line read as what it asks for.
ghost use Rattle.pst_base.specs.Stops.{Gives};
ghost use Rattle.session_lines.specs.Lines.{asked, at_pin, close_view, embed, get_embedded, list_embedded, on_embedded, on_views, open_view, session_line, set_embedded, show_view, store_line, transaction_line, unpin, unset_embedded, with_word};

use crate::line::{SessionLine, TransactionLine};
use crate::words::{read_direction, read_number};
use command_text::{
    Command, EmbeddedCommand, LineRefusal, as_text, cut, id_and_name, id_and_tag, id_and_value,
    one_id, only_asks, read_text, two_ids,
};
use pst_base::MemOr;
use std::alloc::Global;

/// A line that only asks.
#[tactic(auto, unfolding(crate::specs::Lines::asked))]
fn asked(alloc: Global, line: &str) -> Result<Command, MemOr<LineRefusal>>
    ensures { Gives (λ c. c) result (asked line.now) }
{
    match read_text(alloc, line) {
        Ok(command) => {
            if only_asks(&command) {
                Ok(command)
            } else {
                Err(MemOr::Refused(LineRefusal::Line))
            }
        }
        Err(MemOr::Refused(_)) => Err(MemOr::Refused(LineRefusal::Line)),
        Err(MemOr::Memory) => Err(MemOr::Memory),
    }
}

/// What stands behind `at `: the pin, and the line that it is asked.
#[tactic(auto, unfolding(crate::specs::Lines::at_pin))]
fn at_pin(alloc: Global, rest: &str) -> Result<SessionLine, MemOr<LineRefusal>>
    ensures { Gives (λ l. l) result (at_pin rest.now) }
{
    let Some((pin, line)) = cut(rest) else {
        return Err(MemOr::Refused(LineRefusal::Line));
    };
    let Some(pin) = read_number(pin) else {
        return Err(MemOr::Refused(LineRefusal::Line));
    };
    let command = asked(alloc, line)?;
    Ok(SessionLine::At { pin, command })
}

/// What stands behind `unpin `: the pin.
#[tactic(auto, unfolding(crate::specs::Lines::unpin))]
fn unpin(rest: &str) -> Result<SessionLine, MemOr<LineRefusal>>
    ensures { Gives (λ l. l) result (unpin rest.now) }
{
    match read_number(rest) {
        Some(pin) => Ok(SessionLine::Unpin { pin }),
        None => Err(MemOr::Refused(LineRefusal::Line)),
    }
}

/// What stands behind `view `: the folder, the column and the direction.
#[tactic(auto, unfolding(crate::specs::Lines::open_view))]
fn open_view(rest: &str) -> Result<SessionLine, MemOr<LineRefusal>>
    ensures { Gives (λ l. l) result (open_view rest.now) }
{
    let Some((front, direction)) = read_direction(rest) else {
        return Err(MemOr::Refused(LineRefusal::Line));
    };
    let Some(front) = as_text(front) else {
        return Err(MemOr::Refused(LineRefusal::Line));
    };
    let (folder, tag) = id_and_tag(front)?;
    Ok(SessionLine::OpenView {
        folder,
        tag,
        direction,
    })
}

/// What stands behind `rows ` or `groups `: the view.
#[tactic(auto, unfolding(crate::specs::Lines::show_view))]
fn show_view(rest: &str, grouped: bool) -> Result<SessionLine, MemOr<LineRefusal>>
    ensures { Gives (λ l. l) result (show_view grouped rest.now) }
{
    match read_number(rest) {
        Some(view) => Ok(SessionLine::ShowView { view, grouped }),
        None => Err(MemOr::Refused(LineRefusal::Line)),
    }
}

/// What stands behind `unview `: the view.
#[tactic(auto, unfolding(crate::specs::Lines::close_view))]
fn close_view(rest: &str) -> Result<SessionLine, MemOr<LineRefusal>>
    ensures { Gives (λ l. l) result (close_view rest.now) }
{
    match read_number(rest) {
        Some(view) => Ok(SessionLine::CloseView { view }),
        None => Err(MemOr::Refused(LineRefusal::Line)),
    }
}

/// A command of the store.
#[tactic(auto, unfolding(crate::specs::Lines::store_line))]
fn store_line(alloc: Global, text: &str) -> Result<SessionLine, MemOr<LineRefusal>>
    ensures { Gives (λ l. l) result (store_line text.now) }
{
    let command = read_text(alloc, text)?;
    Ok(SessionLine::Command(command))
}

/// What stands behind `embed `: the message, the one to be embedded, and the name, spaces and all.
#[tactic(auto, unfolding(crate::specs::Lines::embed))]
fn embed(alloc: Global, rest: &str) -> Result<SessionLine, MemOr<LineRefusal>>
    ensures { Gives (λ l. l) result (embed rest.now) }
{
    let Some((message, rest)) = cut(rest) else {
        return Err(MemOr::Refused(LineRefusal::Line));
    };
    let message = one_id(message)?;
    let (source, name) = id_and_name(alloc, rest)?;
    Ok(SessionLine::Embedded(EmbeddedCommand::Embed {
        message,
        source,
        name,
    }))
}

/// What stands behind `eprops `: the message and the attachment.
#[tactic(auto, unfolding(crate::specs::Lines::list_embedded))]
fn list_embedded(rest: &str) -> Result<SessionLine, MemOr<LineRefusal>>
    ensures { Gives (λ l. l) result (list_embedded rest.now) }
{
    let (message, attachment) = two_ids(rest)?;
    Ok(SessionLine::Embedded(EmbeddedCommand::List {
        message,
        attachment,
    }))
}

/// What stands behind `eget `: the message, the attachment and the tag.
#[tactic(auto, unfolding(crate::specs::Lines::get_embedded))]
fn get_embedded(rest: &str) -> Result<SessionLine, MemOr<LineRefusal>>
    ensures { Gives (λ l. l) result (get_embedded rest.now) }
{
    let Some((message, rest)) = cut(rest) else {
        return Err(MemOr::Refused(LineRefusal::Line));
    };
    let message = one_id(message)?;
    let (attachment, tag) = id_and_tag(rest)?;
    Ok(SessionLine::Embedded(EmbeddedCommand::Get {
        message,
        attachment,
        tag,
    }))
}

/// What stands behind `eset `: the message, the attachment, the tag and the value, spaces and all.
#[tactic(auto, unfolding(crate::specs::Lines::set_embedded))]
fn set_embedded(alloc: Global, rest: &str) -> Result<SessionLine, MemOr<LineRefusal>>
    ensures { Gives (λ l. l) result (set_embedded rest.now) }
{
    let Some((message, rest)) = cut(rest) else {
        return Err(MemOr::Refused(LineRefusal::Line));
    };
    let message = one_id(message)?;
    let (attachment, value) = id_and_value(alloc, rest)?;
    Ok(SessionLine::Embedded(EmbeddedCommand::Set {
        message,
        attachment,
        value,
    }))
}

/// What stands behind `eunset `: the message, the attachment and the tag.
#[tactic(auto, unfolding(crate::specs::Lines::unset_embedded))]
fn unset_embedded(rest: &str) -> Result<SessionLine, MemOr<LineRefusal>>
    ensures { Gives (λ l. l) result (unset_embedded rest.now) }
{
    let Some((message, rest)) = cut(rest) else {
        return Err(MemOr::Refused(LineRefusal::Line));
    };
    let message = one_id(message)?;
    let (attachment, tag) = id_and_tag(rest)?;
    Ok(SessionLine::Embedded(EmbeddedCommand::Unset {
        message,
        attachment,
        tag,
    }))
}

/// A line on the message in an attachment: its first word, and what stands behind the space.
#[tactic(auto, unfolding(crate::specs::Lines::on_embedded))]
fn on_embedded(
    alloc: Global,
    text: &str,
    word: &str,
    rest: &str,
) -> Result<SessionLine, MemOr<LineRefusal>>
    ensures { Gives (λ l. l) result (on_embedded text.now word.now rest.now) }
{
    match word {
        "embed" => embed(alloc, rest),
        "eprops" => list_embedded(rest),
        "eget" => get_embedded(rest),
        "eset" => set_embedded(alloc, rest),
        "eunset" => unset_embedded(rest),
        _ => store_line(alloc, text),
    }
}

/// A line on views: its first word, and what stands behind the space.
#[tactic(auto, unfolding(crate::specs::Lines::on_views))]
fn on_views(
    alloc: Global,
    text: &str,
    word: &str,
    rest: &str,
) -> Result<SessionLine, MemOr<LineRefusal>>
    ensures { Gives (λ l. l) result (on_views text.now word.now rest.now) }
{
    match word {
        "view" => open_view(rest),
        "rows" => show_view(rest, false),
        "groups" => show_view(rest, true),
        "unview" => close_view(rest),
        _ => on_embedded(alloc, text, word, rest),
    }
}

/// A line with a space: its first word, and what stands behind the space.
#[tactic(auto, unfolding(crate::specs::Lines::with_word))]
fn with_word(
    alloc: Global,
    text: &str,
    word: &str,
    rest: &str,
) -> Result<SessionLine, MemOr<LineRefusal>>
    ensures { Gives (λ l. l) result (with_word text.now word.now rest.now) }
{
    match word {
        "at" => at_pin(alloc, rest),
        "unpin" => unpin(rest),
        _ => on_views(alloc, text, word, rest),
    }
}

/// What a line of a session asks for, without its LF. A line is cut at each single space, so that two spaces make an empty word.
///
/// `Line` says that it isn't UTF-8; that behind `at ` no pin, space and line that only asks stand, whatever is wrong with that line; that behind `unpin ` no pin stands, or behind `rows `, `groups ` or `unview ` no view; that behind `view ` no folder, column and `up` or `down` stand; that behind `embed `, `eprops `, `eget `, `eset ` or `eunset ` not the ids, the tag and the words of such a line stand; or that another line is a command of none of the forms. A pin or a view is one or more decimal digits of a number from 1 on. `Value` says that of such a line or of a command of the store, which isn't one behind `at `, only a name or a value isn't of its form. `read_line` has those forms.
#[tactic(auto, unfolding(crate::specs::Lines::session_line))]
pub fn read_session_line(alloc: Global, line: &[u8]) -> Result<SessionLine, MemOr<LineRefusal>>
    ensures { Gives (λ l. l) result (session_line line.now) }
{
    let Some(text) = as_text(line) else {
        return Err(MemOr::Refused(LineRefusal::Line));
    };
    match cut(text) {
        Some((word, rest)) => with_word(alloc, text, word, rest),
        None => match text {
            "pin" => Ok(SessionLine::Pin),
            _ => store_line(alloc, text),
        },
    }
}

/// What a line of a session with transactions asks for, without its LF: `begin`, `commit`, `rollback`, or what `read_session_line` reads, which is refused as there.
#[tactic(auto, unfolding(crate::specs::Lines::transaction_line))]
pub fn read_transaction_line(
    alloc: Global,
    line: &[u8],
) -> Result<TransactionLine, MemOr<LineRefusal>>
    ensures { Gives (λ l. l) result (transaction_line line.now) }
{
    let Some(text) = as_text(line) else {
        return Err(MemOr::Refused(LineRefusal::Line));
    };
    match text {
        "begin" => Ok(TransactionLine::Begin),
        "commit" => Ok(TransactionLine::Commit),
        "rollback" => Ok(TransactionLine::Rollback),
        _ => {
            let asked = read_session_line(alloc, line)?;
            Ok(TransactionLine::Session(asked))
        }
    }
}
