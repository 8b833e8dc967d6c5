//! What a session answers to a line.
ghost use Rattle.std.specs.Prelude.{◌≡◌, [], length};

use crate::command::LineRefusal;
use crate::scope::Scope;
use mapi_values::{Tag, Units, Value};
use pst_base::{Bytes, Nid};
use search_obj::SearchState;
use std::alloc::Global;
use std::marker::Model;

/// A line of data in a reply, one variant for each form.
#[derive(Debug, Drop)]
pub enum DataLine {
    /// A plain folder.
    Folder {
        id: Nid,
        name: Units,
    },
    /// A search folder of our own.
    Search {
        id: Nid,
        name: Units,
    },
    /// A search folder that another program made.
    Foreign {
        id: Nid,
        name: Units,
    },
    /// A message: the size that it tells of itself, as the bits of a signed number, and its subject.
    Message {
        id: Nid,
        size: u32,
        subject: Units,
    },
    /// A property: its tag, and how many bytes its value has.
    Property {
        tag: Tag,
        len: u64,
    },
    /// A recipient: its row, its type, as the bits of a signed number, its address and its name.
    Recipient {
        row: u32,
        kind: u32,
        address: Units,
        name: Units,
    },
    /// An attachment: how many bytes its data has, and its name.
    Attachment {
        id: Nid,
        len: u64,
        name: Units,
    },
}

/// The lines of data of a reply. Contracts see their list.
#[derive(Debug, Drop)]
pub struct DataLines {
    lines: Vec<DataLine>,
}

impl Model for DataLines {
    ghost use Rattle.std.specs.Prelude.{List};
    ghost use Rattle.command_text.specs.declared.reply.DataLine.{DataLine};

    ghost Value = { List DataLine };

    ghost view = { λ d. d.lines.items };
}

impl DataLines {
    /// The lines of a vector, which it keeps.
    pub fn from_vec(lines: Vec<DataLine>) -> DataLines
        ensures { result ≡ lines.items }
    {
        DataLines { lines }
    }

    /// The vector that keeps the lines.
    pub fn into_vec(self) -> Vec<DataLine>
        ensures { result.items ≡ self }
    {
        self.lines
    }

    /// The lines.
    pub fn as_slice(&self) -> &[DataLine]
        ensures value { result.now ≡ self.now }
        ensures len { length result.now ≡ length self.now }
    {
        self.lines.as_slice()
    }
}

/// Which limit a command would pass.
#[derive(Clone, Copy, Debug, PartialEq, Eq)]
pub enum Limit {
    Line,
    Depth,
    Rows,
    Properties,
    Value,
    Searches,
    Names,
    Nesting,
}

/// Why a command is refused. It has then changed nothing.
#[derive(Clone, Copy, Debug, PartialEq, Eq)]
pub enum CommandRefusal {
    /// An id names nothing of the kind that the command takes.
    Object,
    /// Another child of the parent has an equal name.
    NameTaken,
    /// The folder holds something.
    NotEmpty,
    /// The folder would lie below itself.
    Cycle,
    /// The folder is of another kind than the command takes.
    Reserved,
    /// The attachment holds no message.
    Embedded,
    /// There is no property of that id and kind.
    Property,
    /// A name or a value isn't of its form.
    Value,
    /// The line has none of the forms.
    Line,
    /// The folder or the property isn't to be changed.
    Protected,
    /// The restriction can't be read from this offset on.
    Restriction { at: u64 },
    /// The scope names a folder twice, or something else.
    Scope,
    /// The flags hold unknown bits, or bits that exclude each other.
    Flags,
    /// The line keeps criteria of a search that has none.
    Criteria,
    /// A limit would be passed.
    Limit(Limit),
    /// No number is left for a new object.
    Ids,
    /// The file has fewer free cells than the command needs.
    Full { free: u64, need: u64 },
}

impl From<LineRefusal> for CommandRefusal {
    ghost use Rattle.std.specs.Prelude.{◌≡◌};
    ghost use Rattle.command_text.specs.Refused.{refusal_of};

    ghost from_gives = { λ line refusal. refusal ≡ refusal_of line };

    fn from(line: LineRefusal) -> CommandRefusal {
        match line {
            LineRefusal::Line => CommandRefusal::Line,
            LineRefusal::Value => CommandRefusal::Value,
        }
    }
}

/// The last line of a reply, one variant for each form.
#[derive(Debug, Drop)]
pub enum LastLine {
    /// `ok`
    Done,
    /// `ok` and the id of what was made.
    Made(Nid),
    /// `ok` and how many lines of data stand before it.
    Count(u64),
    /// `ok` and the row of a recipient.
    Row(u32),
    /// `ok` and the id of an attachment.
    Attached(Nid),
    /// `ok` and the id of a property that has a name.
    Named(u16),
    /// `ok` and a value.
    Value(Value),
    /// `ok` and what was set of a search: its flags, the folders that it is given, its restriction, what it does as messages change, and how often its list was built.
    Criteria {
        flags: u32,
        scope: Scope,
        restriction: Bytes,
        state: SearchState,
        builds: u32,
    },
    /// `ok none`: nothing was set of a search.
    NoCriteria,
    /// `no` and the refusal.
    Refused(CommandRefusal),
    /// `no memory`
    NoMemory,
}

/// An answer: lines of data, and a last line.
#[derive(Debug, Drop)]
pub struct Reply {
    pub lines: DataLines,
    pub last: LastLine,
}

impl Reply {
    /// A reply without lines of data. Takes no memory.
    pub fn without_data(alloc: Global, last: LastLine) -> Reply
        ensures lines { result.lines ≡ [] }
        ensures last { result.last ≡ last }
    {
        Reply {
            lines: DataLines::from_vec(Vec::new(alloc)),
            last,
        }
    }
}
