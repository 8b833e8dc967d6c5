//! What a line asks for, and what is said to a line on transactions, on pins and on views.
use command_text::{Command, EmbeddedCommand};
use mapi_values::Tag;
use pst_base::Nid;
use sorted_views::Direction;

/// What a line of a session asks for.
#[derive(Debug, Drop)]
pub enum SessionLine {
    /// `pin`: the present tree stays readable.
    Pin,
    /// `at P LINE`: what a line that only asks answers by the tree of the pin P. `None` is a number that no pin has.
    At {
        pin: Option<u32>,
        command: Command,
    },
    /// `unpin P`: the pin P is given up.
    Unpin {
        pin: Option<u32>,
    },
    /// `view F TAG DIR`: a view of the messages of the folder F, sorted by the column TAG.
    OpenView {
        folder: Nid,
        tag: Tag,
        direction: Direction,
    },
    /// `rows V` and `groups V`: the rows of the view V, or its groups. `None` is a number that no view has.
    ShowView {
        view: Option<u32>,
        grouped: bool,
    },
    /// `unview V`: the view V is closed.
    CloseView {
        view: Option<u32>,
    },
    /// `embed`, `eprops`, `eget`, `eset` and `eunset`: what a line on the message in an attachment asks for.
    Embedded(EmbeddedCommand),
    /// Any other line: a command of the store.
    Command(Command),
}

/// What a line of a session with transactions asks for.
#[derive(Debug, Drop)]
pub enum TransactionLine {
    /// `begin`: a transaction is opened.
    Begin,
    /// `commit`: what the lines since then changed is committed as one.
    Commit,
    /// `rollback`: it is dropped.
    Rollback,
    /// Any other line.
    Session(SessionLine),
}

/// What is said to a line on transactions.
#[derive(Clone, Copy, Debug, PartialEq, Eq)]
pub enum TransactionReply {
    /// `ok`
    Done,
    /// `no limit transaction`: the transaction would put too much with the line.
    Full,
}

/// What is said to a line on pins beside what its command says.
#[derive(Clone, Copy, Debug, PartialEq, Eq)]
pub enum PinReply {
    /// `ok` and the number of the new pin.
    Pinned(u32),
    /// `ok`
    Unpinned,
    /// `no pin`: no open pin has that number.
    NoPin,
    /// `no limit pins`: no further pin can be made.
    PinsFull,
}

/// What is said to a line on views that lists nothing.
#[derive(Clone, Copy, Debug, PartialEq, Eq)]
pub enum ViewReply {
    /// `ok` and the number of the new view.
    Opened(u32),
    /// `ok`
    Closed,
    /// `no view`: no open view has that number.
    NoView,
    /// `no column`: the folder's table has no such column, or one of a kind without keys.
    NoColumn,
    /// `no limit views`: no further view can be opened.
    ViewsFull,
}
