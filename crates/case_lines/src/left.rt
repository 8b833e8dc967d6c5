//! What a stop leaves of a case.
use crate::world::CaseWorld;
use pst_base::Bytes;
use pst_outside::{Part, Pick};
use std::alloc::{AllocError, Global};

/// The outcomes of a crash that are looked at, of each of the two files.
const PICKS: [Pick; 3] = [Pick::Old, Pick::New, Pick::Junk];

/// How a case is cut off at a call.
#[derive(Clone, Copy, Debug)]
pub enum Cut {
    /// The disk fails from the call on.
    Stop,
    /// The call of the disk fails.
    Disk,
    /// The call of `take` fails.
    Take,
    /// The call of `say` fails.
    Say,
}

impl Cut {
    /// The status with which the call of the program must end.
    pub fn status(self) -> u8 {
        match self {
            Cut::Stop | Cut::Disk => 4,
            Cut::Take => 5,
            Cut::Say => 6,
        }
    }

    /// Whether the call at which a case was to be cut off came.
    pub fn came(self, w: &CaseWorld) -> bool {
        let faults = match self {
            Cut::Stop | Cut::Disk => w.disk_faults,
            Cut::Take => w.in_faults,
            Cut::Say => w.out_faults,
        };
        faults > 0
    }
}

/// A case that was cut off and ended with another status than it must, or of which an outcome of a crash opens as none that may be.
#[derive(Drop)]
pub struct BadStop {
    pub cut: Cut,
    /// The number of the call at which it was cut off.
    pub call: u64,
    /// The status with which it ended.
    pub status: u8,
    pub main: Pick,
    pub side: Pick,
    /// What was said of the outcome.
    pub said: Vec<u8>,
}

/// How many replies have begun: each ends with a line that begins with `ok` or `no`.
pub fn begun(said: &[u8]) -> usize {
    let mut count = 0usize;
    let mut open = 0usize;
    for line in said.split(|byte| *byte == b'\n') {
        if line.starts_with(b"ok") || line.starts_with(b"no") {
            count = count.saturating_add(1);
            open = 0;
        } else if !line.is_empty() {
            open = 1;
        }
    }
    count.saturating_add(open)
}

/// What a crash may leave of a file.
#[derive(Drop)]
pub struct Left {
    pub pick: Pick,
    pub bytes: Bytes,
}

/// The outcomes of a crash of a file that differ.
pub fn outcomes(alloc: Global, w: &CaseWorld, part: Part) -> Result<Vec<Left>, AllocError> {
    let mut outcomes: Vec<Left> = Vec::new(alloc);
    for pick in PICKS {
        let bytes = w.world.crash(alloc, part, pick)?;
        let is_known = outcomes
            .iter()
            .any(|left| left.bytes.as_slice() == bytes.as_slice());
        if !is_known {
            outcomes.push(Left { pick, bytes })?;
        }
    }
    Ok(outcomes)
}
