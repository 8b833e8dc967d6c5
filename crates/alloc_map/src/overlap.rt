//! The refusal of places that meet.

/// Two places meet: `ib` is where the later of them begins. Of all two that meet it names the least such start.
#[derive(Clone, Copy, Debug, PartialEq, Eq)]
pub struct Overlap {
    pub ib: u64,
}
