//! How a server of lines ends.

/// Why a server of lines ended.
#[derive(Clone, Copy, Debug, PartialEq, Eq, Drop)]
pub enum ServerEnd<S> {
    /// The input was read to its end or to `quit`.
    Done,
    /// The input failed.
    Input,
    /// The output failed.
    Output,
    /// As many lines were taken as a server takes, 2^32.
    Lines,
    /// What answers lines stopped at one, of whose reply nothing was said.
    Stopped(S),
}
