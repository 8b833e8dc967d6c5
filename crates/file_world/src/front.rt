//! The front of what was said.
ghost use Rattle.std.specs.Prelude.{◌≤◌};

/// How many bytes are kept.
const LIMIT: usize = 64;

/// The first bytes that were said: enough to tell which refusal it was.
#[derive(Drop)]
pub(crate) struct Front {
    bytes: [u8; 64],
    len: usize,
    ghost within: { len ≤ 64 },
}

impl Front {
    pub(crate) fn new() -> Front {
        Front {
            bytes: [0; 64],
            len: 0,
        }
    }

    /// Keeps what comes first of a piece that was said next.
    pub(crate) fn add(&mut self, piece: &[u8]) {
        let n = piece.len().min(LIMIT - self.len);
        self.bytes[self.len..self.len + n].copy_from_slice(&piece[..n]);
        self.len += n;
    }

    pub(crate) fn as_slice(&self) -> &[u8] {
        &self.bytes[..self.len]
    }
}
