//! How a call of the program ends.
ghost use Rattle.std.specs.Prelude.{◌≡◌, ◌↔◌, IsSome};
ghost use Rattle.mail_session.specs.Statuses.{code_of, changed_of};

/// The place and the two numbers of what changed while it was read.
#[derive(Clone, Copy, Debug, PartialEq, Eq)]
pub struct ChangedAt {
    pub ib: u64,
    pub stored: u64,
    pub computed: u64,
}

/// The status of a call, and what changed, which is there for status 9 alone.
#[derive(Clone, Copy, Debug, PartialEq, Eq)]
pub struct Exit {
    pub status: u8,
    pub changed: Option<ChangedAt>,
}

/// Why a call ended.
#[derive(Clone, Copy, Debug, PartialEq, Eq)]
pub enum Status {
    /// It is done, or the input was read to its end or to `quit`.
    Done,
    /// The words are none of the forms.
    Words,
    /// A refusal was said.
    Refused,
    /// The disk failed.
    Disk,
    /// The input failed.
    Input,
    /// The output failed.
    Output,
    /// There was no memory.
    Memory,
    /// As many lines were taken as a session may take.
    Lines,
    /// Something passed its check and failed it at a later reading.
    Changed(ChangedAt),
}

impl Status {
    /// The number of the status.
    pub(crate) fn code(self) -> u8
        ensures { result ≡ code_of self }
    {
        match self {
            Status::Done => 0,
            Status::Words => 2,
            Status::Refused => 3,
            Status::Disk => 4,
            Status::Input => 5,
            Status::Output => 6,
            Status::Memory => 7,
            Status::Lines => 8,
            Status::Changed(_) => 9,
        }
    }

    fn changed(self) -> Option<ChangedAt>
        ensures { result ≡ changed_of self }
    {
        match self {
            Status::Changed(at) => Some(at),
            _ => None,
        }
    }

    /// The end of a call with this status.
    pub fn exit(self) -> Exit
        ensures status { result.status ≡ code_of self }
        ensures changed { (result.status ≡ 9) ↔ IsSome result.changed }
    {
        Exit {
            status: self.code(),
            changed: self.changed(),
        }
    }
}
