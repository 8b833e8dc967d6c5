//! A line read as a command.
ghost use Rattle.pst_base.specs.Stops.{Gives};
ghost use Rattle.command_text.specs.Lines.{make_folder, rename_folder, move_folder, remove_folder, list_folder, new_message, set_property, unset_property, get_property, list_properties, move_message, copy_message, remove_message, add_recipient, remove_recipient, add_attachment, append_data, remove_attachment, fetch_data, one_word, on_message, on_part, on_search, with_arguments, text_command, command, name_property, make_search, set_criteria, get_criteria};

use crate::arguments::{id_and_name, id_and_tag, id_and_value, one_id, two_ids};
use crate::command::{Command, Held, LineRefusal};
use crate::words::{
    as_text, cut, read_data, read_guid, read_name, read_recipient_type, read_restriction, read_row,
    read_scope,
};
use mapi_values::Props;
use pst_base::MemOr;
use std::alloc::Global;
use value_text::magnitude;

/// What stands behind `mkdir `: the parent's id, and the name, spaces and all.
#[tactic(auto, unfolding(crate::specs::Lines::make_folder))]
fn make_folder(alloc: Global, rest: &str) -> Result<Command, MemOr<LineRefusal>>
    ensures { Gives (λ c. c) result (make_folder rest.now) }
{
    let (parent, name) = id_and_name(alloc, rest)?;
    Ok(Command::MakeFolder { parent, name })
}

/// What stands behind `rename `: the folder's id, and the name, spaces and all.
#[tactic(auto, unfolding(crate::specs::Lines::rename_folder))]
fn rename_folder(alloc: Global, rest: &str) -> Result<Command, MemOr<LineRefusal>>
    ensures { Gives (λ c. c) result (rename_folder rest.now) }
{
    let (folder, name) = id_and_name(alloc, rest)?;
    Ok(Command::RenameFolder { folder, name })
}

/// What stands behind `mvdir `: the folder's id, and its new parent's.
#[tactic(auto, unfolding(crate::specs::Lines::move_folder))]
fn move_folder(rest: &str) -> Result<Command, MemOr<LineRefusal>>
    ensures { Gives (λ c. c) result (move_folder rest.now) }
{
    let (folder, parent) = two_ids(rest)?;
    Ok(Command::MoveFolder { folder, parent })
}

/// What stands behind `rmdir `: the folder's id.
#[tactic(auto, unfolding(crate::specs::Lines::remove_folder))]
fn remove_folder(rest: &str) -> Result<Command, MemOr<LineRefusal>>
    ensures { Gives (λ c. c) result (remove_folder rest.now) }
{
    let folder = one_id(rest)?;
    Ok(Command::RemoveFolder { folder })
}

/// What stands behind `ls `: the folder's id.
#[tactic(auto, unfolding(crate::specs::Lines::list_folder))]
fn list_folder(rest: &str) -> Result<Command, MemOr<LineRefusal>>
    ensures { Gives (λ c. c) result (list_folder rest.now) }
{
    let folder = one_id(rest)?;
    Ok(Command::ListFolder { folder })
}

/// What stands behind `new `: the folder's id, the class and the time. The class is looked at last, since another fault of the line comes before it.
#[tactic(auto, unfolding(crate::specs::Lines::new_message))]
fn new_message(alloc: Global, rest: &str) -> Result<Command, MemOr<LineRefusal>>
    ensures { Gives (λ c. c) result (new_message rest.now) }
{
    let Some((folder, rest)) = cut(rest) else {
        return Err(MemOr::Refused(LineRefusal::Line));
    };
    let folder = one_id(folder)?;
    let Some((class, time)) = cut(rest) else {
        return Err(MemOr::Refused(LineRefusal::Line));
    };
    let Some(time) = magnitude(time) else {
        return Err(MemOr::Refused(LineRefusal::Line));
    };
    let class = read_name(alloc, class)?;
    Ok(Command::NewMessage {
        folder,
        class,
        time,
        values: Props::new(alloc),
    })
}

/// What stands behind `set `: the message's id, the tag, and the value, spaces and all.
#[tactic(auto, unfolding(crate::specs::Lines::set_property))]
fn set_property(alloc: Global, rest: &str) -> Result<Command, MemOr<LineRefusal>>
    ensures { Gives (λ c. c) result (set_property rest.now) }
{
    let (message, value) = id_and_value(alloc, rest)?;
    Ok(Command::SetProperty { message, value })
}

/// What stands behind `unset `: the message's id, and the tag.
#[tactic(auto, unfolding(crate::specs::Lines::unset_property))]
fn unset_property(rest: &str) -> Result<Command, MemOr<LineRefusal>>
    ensures { Gives (λ c. c) result (unset_property rest.now) }
{
    let (message, tag) = id_and_tag(rest)?;
    Ok(Command::UnsetProperty { message, tag })
}

/// What stands behind `get `: the message's id, and the tag.
#[tactic(auto, unfolding(crate::specs::Lines::get_property))]
fn get_property(rest: &str) -> Result<Command, MemOr<LineRefusal>>
    ensures { Gives (λ c. c) result (get_property rest.now) }
{
    let (message, tag) = id_and_tag(rest)?;
    Ok(Command::GetProperty { message, tag })
}

/// What stands behind `props `: the message's id.
#[tactic(auto, unfolding(crate::specs::Lines::list_properties))]
fn list_properties(rest: &str) -> Result<Command, MemOr<LineRefusal>>
    ensures { Gives (λ c. c) result (list_properties rest.now) }
{
    let message = one_id(rest)?;
    Ok(Command::ListProperties { message })
}

/// What stands behind `mv `: the message's id, and the folder's.
#[tactic(auto, unfolding(crate::specs::Lines::move_message))]
fn move_message(rest: &str) -> Result<Command, MemOr<LineRefusal>>
    ensures { Gives (λ c. c) result (move_message rest.now) }
{
    let (message, folder) = two_ids(rest)?;
    Ok(Command::MoveMessage { message, folder })
}

/// What stands behind `cp `: the message's id, and the folder's.
#[tactic(auto, unfolding(crate::specs::Lines::copy_message))]
fn copy_message(rest: &str) -> Result<Command, MemOr<LineRefusal>>
    ensures { Gives (λ c. c) result (copy_message rest.now) }
{
    let (message, folder) = two_ids(rest)?;
    Ok(Command::CopyMessage { message, folder })
}

/// What stands behind `rm `: the message's id.
#[tactic(auto, unfolding(crate::specs::Lines::remove_message))]
fn remove_message(rest: &str) -> Result<Command, MemOr<LineRefusal>>
    ensures { Gives (λ c. c) result (remove_message rest.now) }
{
    let message = one_id(rest)?;
    Ok(Command::RemoveMessage { message })
}

/// What stands behind `rcpt `: the message's id, the type, the address, and the name, spaces and all. Address and name are looked at last, since another fault of the line comes before them.
#[tactic(auto, unfolding(crate::specs::Lines::add_recipient))]
fn add_recipient(alloc: Global, rest: &str) -> Result<Command, MemOr<LineRefusal>>
    ensures { Gives (λ c. c) result (add_recipient rest.now) }
{
    let Some((message, rest)) = cut(rest) else {
        return Err(MemOr::Refused(LineRefusal::Line));
    };
    let message = one_id(message)?;
    let Some((kind, rest)) = cut(rest) else {
        return Err(MemOr::Refused(LineRefusal::Line));
    };
    let Some(kind) = read_recipient_type(kind) else {
        return Err(MemOr::Refused(LineRefusal::Line));
    };
    let Some((address, name)) = cut(rest) else {
        return Err(MemOr::Refused(LineRefusal::Line));
    };
    let address = read_name(alloc, address)?;
    let name = read_name(alloc, name)?;
    Ok(Command::AddRecipient {
        message,
        kind,
        address,
        name,
    })
}

/// What stands behind `unrcpt `: the message's id, and the row.
#[tactic(auto, unfolding(crate::specs::Lines::remove_recipient))]
fn remove_recipient(rest: &str) -> Result<Command, MemOr<LineRefusal>>
    ensures { Gives (λ c. c) result (remove_recipient rest.now) }
{
    let Some((message, row)) = cut(rest) else {
        return Err(MemOr::Refused(LineRefusal::Line));
    };
    let message = one_id(message)?;
    match read_row(row) {
        Some(row) => Ok(Command::RemoveRecipient { message, row }),
        None => Err(MemOr::Refused(LineRefusal::Line)),
    }
}

/// What stands behind `attach `: the message's id, the file name, and the data in hex. The name is looked at last, since another fault of the line comes before it.
#[tactic(auto, unfolding(crate::specs::Lines::add_attachment))]
fn add_attachment(alloc: Global, rest: &str) -> Result<Command, MemOr<LineRefusal>>
    ensures { Gives (λ c. c) result (add_attachment rest.now) }
{
    let Some((message, rest)) = cut(rest) else {
        return Err(MemOr::Refused(LineRefusal::Line));
    };
    let message = one_id(message)?;
    let Some((name, data)) = cut(rest) else {
        return Err(MemOr::Refused(LineRefusal::Line));
    };
    let data = read_data(alloc, data)?;
    let name = read_name(alloc, name)?;
    Ok(Command::AddAttachment {
        message,
        name,
        held: Held::Data(data),
    })
}

/// What stands behind `append `: the message's id, the attachment's, and the bytes in hex.
#[tactic(auto, unfolding(crate::specs::Lines::append_data))]
fn append_data(alloc: Global, rest: &str) -> Result<Command, MemOr<LineRefusal>>
    ensures { Gives (λ c. c) result (append_data rest.now) }
{
    let Some((message, rest)) = cut(rest) else {
        return Err(MemOr::Refused(LineRefusal::Line));
    };
    let message = one_id(message)?;
    let Some((attachment, data)) = cut(rest) else {
        return Err(MemOr::Refused(LineRefusal::Line));
    };
    let attachment = one_id(attachment)?;
    let data = read_data(alloc, data)?;
    Ok(Command::AppendData {
        message,
        attachment,
        data,
    })
}

/// What stands behind `detach `: the message's id, and the attachment's.
#[tactic(auto, unfolding(crate::specs::Lines::remove_attachment))]
fn remove_attachment(rest: &str) -> Result<Command, MemOr<LineRefusal>>
    ensures { Gives (λ c. c) result (remove_attachment rest.now) }
{
    let (message, attachment) = two_ids(rest)?;
    Ok(Command::RemoveAttachment {
        message,
        attachment,
    })
}

/// What stands behind `fetch `: the message's id, and the attachment's.
#[tactic(auto, unfolding(crate::specs::Lines::fetch_data))]
fn fetch_data(rest: &str) -> Result<Command, MemOr<LineRefusal>>
    ensures { Gives (λ c. c) result (fetch_data rest.now) }
{
    let (message, attachment) = two_ids(rest)?;
    Ok(Command::FetchData {
        message,
        attachment,
    })
}

/// What stands behind `name `: the GUID, and the number, which is written as an id is.
#[tactic(auto, unfolding(crate::specs::Lines::name_property))]
fn name_property(alloc: Global, rest: &str) -> Result<Command, MemOr<LineRefusal>>
    ensures { Gives (λ c. c) result (name_property rest.now) }
{
    let Some((guid, number)) = cut(rest) else {
        return Err(MemOr::Refused(LineRefusal::Line));
    };
    let guid = read_guid(alloc, guid)?;
    let number = one_id(number)?.bits;
    Ok(Command::NameProperty { guid, number })
}

/// What stands behind `mksearch `: the parent's id, and the name.
#[tactic(auto, unfolding(crate::specs::Lines::make_search))]
fn make_search(alloc: Global, rest: &str) -> Result<Command, MemOr<LineRefusal>>
    ensures { Gives (λ c. c) result (make_search rest.now) }
{
    let (parent, name) = id_and_name(alloc, rest)?;
    Ok(Command::MakeSearch { parent, name })
}

/// What stands behind `criteria `: the search's id, the flags, which are written as an id is, the folders' ids with commas between them, and the restriction in hex. A `-` in place of one of these two keeps what stands.
#[tactic(auto, unfolding(crate::specs::Lines::set_criteria))]
fn set_criteria(alloc: Global, rest: &str) -> Result<Command, MemOr<LineRefusal>>
    ensures { Gives (λ c. c) result (set_criteria rest.now) }
{
    let Some((search, rest)) = cut(rest) else {
        return Err(MemOr::Refused(LineRefusal::Line));
    };
    let search = one_id(search)?;
    let Some((flags, rest)) = cut(rest) else {
        return Err(MemOr::Refused(LineRefusal::Line));
    };
    let flags = one_id(flags)?.bits;
    let Some((scope, restriction)) = cut(rest) else {
        return Err(MemOr::Refused(LineRefusal::Line));
    };
    let scope = read_scope(alloc, scope)?;
    let restriction = read_restriction(alloc, restriction)?;
    Ok(Command::SetCriteria {
        search,
        flags,
        scope,
        restriction,
    })
}

/// What stands behind `getcriteria `: the search's id.
#[tactic(auto, unfolding(crate::specs::Lines::get_criteria))]
fn get_criteria(rest: &str) -> Result<Command, MemOr<LineRefusal>>
    ensures { Gives (λ c. c) result (get_criteria rest.now) }
{
    let search = one_id(rest)?;
    Ok(Command::GetCriteria { search })
}

/// A line without a space.
#[tactic(auto, unfolding(crate::specs::Lines::one_word))]
fn one_word(word: &str) -> Result<Command, MemOr<LineRefusal>>
    ensures { Gives (λ c. c) result (one_word word.now) }
{
    match word {
        "save" => Ok(Command::Save),
        "quit" => Ok(Command::Quit),
        _ => Err(MemOr::Refused(LineRefusal::Line)),
    }
}

/// A line whose first word tells of a search folder or of a property's name.
#[tactic(auto, unfolding(crate::specs::Lines::on_search))]
fn on_search(alloc: Global, word: &str, rest: &str) -> Result<Command, MemOr<LineRefusal>>
    ensures { Gives (λ c. c) result (on_search word.now rest.now) }
{
    match word {
        "name" => name_property(alloc, rest),
        "mksearch" => make_search(alloc, rest),
        "criteria" => set_criteria(alloc, rest),
        "getcriteria" => get_criteria(rest),
        _ => Err(MemOr::Refused(LineRefusal::Line)),
    }
}

/// A line whose first word tells of a recipient or an attachment, or of what comes after these.
#[tactic(auto, unfolding(crate::specs::Lines::on_part))]
fn on_part(alloc: Global, word: &str, rest: &str) -> Result<Command, MemOr<LineRefusal>>
    ensures { Gives (λ c. c) result (on_part word.now rest.now) }
{
    match word {
        "rcpt" => add_recipient(alloc, rest),
        "unrcpt" => remove_recipient(rest),
        "attach" => add_attachment(alloc, rest),
        "append" => append_data(alloc, rest),
        "detach" => remove_attachment(rest),
        "fetch" => fetch_data(rest),
        _ => on_search(alloc, word, rest),
    }
}

/// A line whose first word tells of a message, or of what comes after these.
#[tactic(auto, unfolding(crate::specs::Lines::on_message))]
fn on_message(alloc: Global, word: &str, rest: &str) -> Result<Command, MemOr<LineRefusal>>
    ensures { Gives (λ c. c) result (on_message word.now rest.now) }
{
    match word {
        "new" => new_message(alloc, rest),
        "set" => set_property(alloc, rest),
        "unset" => unset_property(rest),
        "get" => get_property(rest),
        "props" => list_properties(rest),
        "mv" => move_message(rest),
        "cp" => copy_message(rest),
        "rm" => remove_message(rest),
        _ => on_part(alloc, word, rest),
    }
}

/// A line with a space: its first word, and what stands behind the space. Those of folders are looked for first, and then those of messages, of their parts and of searches.
#[tactic(auto, unfolding(crate::specs::Lines::with_arguments))]
fn with_arguments(alloc: Global, word: &str, rest: &str) -> Result<Command, MemOr<LineRefusal>>
    ensures { Gives (λ c. c) result (with_arguments word.now rest.now) }
{
    match word {
        "mkdir" => make_folder(alloc, rest),
        "rename" => rename_folder(alloc, rest),
        "mvdir" => move_folder(rest),
        "rmdir" => remove_folder(rest),
        "ls" => list_folder(rest),
        _ => on_message(alloc, word, rest),
    }
}

/// The command that a text is, without its LF, as `read_line` reads it.
#[tactic(auto, unfolding(crate::specs::Lines::text_command))]
pub fn read_text(alloc: Global, text: &str) -> Result<Command, MemOr<LineRefusal>>
    ensures { Gives (λ c. c) result (text_command text.now) }
{
    match cut(text) {
        Some((word, rest)) => with_arguments(alloc, word, rest),
        None => one_word(text),
    }
}

/// The command that a line is, without its LF. A line is cut at each single space, so that two spaces make an empty word; a name or a value runs to the end of the line.
///
/// `Line` says that it isn't UTF-8 or is none of the forms: that its first word or the number of its words is another one, that an id isn't `0x` and 1 to 8 hex digits, that a tag isn't `0x` and 8 of them, that data isn't an even number of them or `-` for none, that a GUID isn't 32 of them, or that a time isn't decimal digits of a number below 2^64, a row of one below 2^32, or a recipient's type of one up to 3. `Value` says that only a name of a folder, a recipient or a file, a class, an address or a value in it isn't of its form: a name, a class and an address are text with good escapes, of 1 to 255 units; a value is what `parse_value` says of its tag.
#[tactic(auto, unfolding(crate::specs::Lines::command))]
pub fn read_line(alloc: Global, line: &[u8]) -> Result<Command, MemOr<LineRefusal>>
    ensures { Gives (λ c. c) result (command line.now) }
{
    match as_text(line) {
        Some(text) => read_text(alloc, text),
        None => Err(MemOr::Refused(LineRefusal::Line)),
    }
}
