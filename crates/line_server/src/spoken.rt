//! What is said.
ghost use Rattle.std.specs.Prelude.{◌≡◌};
ghost use Rattle.line_server.specs.Spoken.{spoken_text};

use pst_base::Bytes;

/// What is said to a piece of the input.
#[derive(Drop)]
pub enum Spoken {
    /// The text of a reply.
    Reply(Bytes),
    /// That there was no memory for one.
    NoMemory,
    /// That a line is too long.
    TooLong,
    /// Nothing: the piece goes on with a line that is answered already.
    Nothing,
}

impl Spoken {
    /// The bytes to say.
    pub fn text(&self) -> &[u8]
        ensures { result.now ≡ spoken_text self.now }
    {
        match self {
            Spoken::Reply(text) => text.as_slice(),
            Spoken::NoMemory => b"no memory\n",
            Spoken::TooLong => b"no limit line\n",
            Spoken::Nothing => &[],
        }
    }
}
