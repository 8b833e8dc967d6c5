//! What a line asks for.
use crate::scope::Scope;
use mapi_values::{Props, Tag, Units, Value};
use pst_base::{Bytes, Nid, Sub};

/// A command, one variant for each form of line, with its arguments in their order.
#[derive(Debug, Drop)]
pub enum Command {
    /// `mkdir P NAME`: a new plain folder in P.
    MakeFolder {
        parent: Nid,
        name: Units,
    },
    /// `rename F NAME`: the folder F gets another name.
    RenameFolder {
        folder: Nid,
        name: Units,
    },
    /// `mvdir F P`: the folder F, with all below it, moves into P.
    MoveFolder {
        folder: Nid,
        parent: Nid,
    },
    /// `rmdir F`: the empty folder F goes.
    RemoveFolder {
        folder: Nid,
    },
    /// `ls F`: what stands in the folder F.
    ListFolder {
        folder: Nid,
    },
    /// `new F CLASS TIME`: a new message in F, with these values beside those that every new message has. A line gives none.
    NewMessage {
        folder: Nid,
        class: Units,
        time: u64,
        values: Props,
    },
    /// `set M TAG VALUE`: the message M gets the value, in place of one with its id.
    SetProperty {
        message: Nid,
        value: Value,
    },
    /// `unset M TAG`: the property of that id and kind goes.
    UnsetProperty {
        message: Nid,
        tag: Tag,
    },
    /// `get M TAG`: the value of that id and kind.
    GetProperty {
        message: Nid,
        tag: Tag,
    },
    /// `props M`: the properties, recipients and attachments of the message M.
    ListProperties {
        message: Nid,
    },
    /// `mv M F`: the message M moves into F.
    MoveMessage {
        message: Nid,
        folder: Nid,
    },
    /// `cp M F`: a copy of the message M in F.
    CopyMessage {
        message: Nid,
        folder: Nid,
    },
    /// `rm M`: the message M goes.
    RemoveMessage {
        message: Nid,
    },
    /// `rcpt M TYPE ADDR NAME`: the message M gets a recipient of a type from 0 to 3.
    AddRecipient {
        message: Nid,
        kind: u32,
        address: Units,
        name: Units,
    },
    /// `unrcpt M ROW`: the recipient in that row of the message M goes.
    RemoveRecipient {
        message: Nid,
        row: u32,
    },
    /// `attach M NAME HEX`: the message M gets an attachment with a file name and data. Or it gets one that holds a message: what `embed` comes to.
    AddAttachment {
        message: Nid,
        name: Units,
        held: Held,
    },
    /// `append M N HEX`: the data of the attachment N of the message M gets these bytes at its end.
    AppendData {
        message: Nid,
        attachment: Nid,
        data: Bytes,
    },
    /// The message in the attachment N of the message M becomes another, which this subnode is: what `eset` and `eunset` come to. No line reads so.
    SetEmbedded {
        message: Nid,
        attachment: Nid,
        node: Sub,
    },
    /// `detach M N`: the attachment N of the message M goes.
    RemoveAttachment {
        message: Nid,
        attachment: Nid,
    },
    /// `fetch M N`: the data of the attachment N of the message M.
    FetchData {
        message: Nid,
        attachment: Nid,
    },
    /// `name GUID ID`: the id of the property that the number ID names under a GUID, whose bytes stand in their order in a file.
    NameProperty {
        guid: [u8; 16],
        number: u32,
    },
    /// `mksearch P NAME`: a new search folder without criteria in P.
    MakeSearch {
        parent: Nid,
        name: Units,
    },
    /// `criteria S FLAGS SCOPE HEX`: the search folder S gets flags, folders to look in and a restriction. Of the last two, what isn't given is kept.
    SetCriteria {
        search: Nid,
        flags: u32,
        scope: Option<Scope>,
        restriction: Option<Bytes>,
    },
    /// `getcriteria S`: what was set of the search folder S.
    GetCriteria {
        search: Nid,
    },
    /// `save`: what is known of the file is written down in full.
    Save,
    /// `quit`: the session ends.
    Quit,
}

/// What a new attachment holds.
#[derive(Debug, Drop)]
pub enum Held {
    /// Data, as lines give it.
    Data(Bytes),
    /// A message that tells this size, laid out as this subnode of the attachment.
    Message { size: u32, node: Sub },
}

/// Why a line is no command.
#[derive(Clone, Copy, Debug, PartialEq, Eq)]
pub enum LineRefusal {
    /// It isn't UTF-8, has none of the forms, or a number in it isn't of its form.
    Line,
    /// A name or a value in it isn't of its form.
    Value,
}
