//! How sessions over a store end.
ghost use Rattle.std.specs.Prelude.{◌≡◌};
ghost use Rattle.store_session.specs.Session.{end_of};

use crate::carrying::StoreStop;
use line_server::ServerEnd;

/// How a session over a store ended.
#[derive(Clone, Copy, Debug, PartialEq, Eq)]
pub enum SessionEnd {
    /// The input was read to its end or to `quit`.
    Done,
    /// The input failed.
    Input,
    /// The output failed.
    Output,
    /// As many lines were taken as a session takes, 2^32.
    Lines,
    /// The disk failed, with one line in hand.
    Disk,
    /// What stands at the offset `ib` isn't as it was found before: the two numbers that the check compared.
    Changed { ib: u64, stored: u64, computed: u64 },
    /// There was no memory for a session: nothing was taken, and nothing said.
    Memory,
}

/// The end of a session whose server of lines ended so.
pub fn end_of(end: ServerEnd<StoreStop>) -> SessionEnd
    ensures { result ≡ end_of end }
{
    match end {
        ServerEnd::Done => SessionEnd::Done,
        ServerEnd::Input => SessionEnd::Input,
        ServerEnd::Output => SessionEnd::Output,
        ServerEnd::Lines => SessionEnd::Lines,
        ServerEnd::Stopped(StoreStop::Disk) => SessionEnd::Disk,
        ServerEnd::Stopped(
            StoreStop::Changed {
                ib,
                stored,
                computed,
            },
        ) => SessionEnd::Changed {
            ib,
            stored,
            computed,
        },
    }
}
