//! Why a file isn't decoded.
use file_layout::OpenStop;

/// Why no copy was made.
#[derive(Clone, Copy, Debug, PartialEq, Eq)]
pub enum DecodeStop {
    /// Copy has bytes already.
    NotEmpty,
    /// The file is refused, or its reading or the writing of the copy stopped.
    Reading(OpenStop),
}
