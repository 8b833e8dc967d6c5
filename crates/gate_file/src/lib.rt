//! The gate: how one header takes the place of another at one moment, and how a stop in between is mended.
//!
//! Promises: at each moment of `arm`, `settle`, `disarm` and `recover_gate` a crash leaves the same store (`SameStore`, by `effective`), and at each of `fire` the old one or the one under the new header (`EitherStore`), and so at each of `commit_header`, which is all four (`UnderEither`). The six steps of a commit stand at the head of `Gate`.
//! Leaves to others: what the header says, and the bytes that it refers to, which the caller writes and syncs before `arm`.
#![tactic(auto)]

mod commit;
mod gate;
mod recover;

pub use commit::commit_header;
pub use gate::{HEADER_LEN, SIDE_LEN, arm, disarm, fire, is_open, settle, write_through};
pub use recover::recover_gate;
