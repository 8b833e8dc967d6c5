//! What a file that lays nodes keeps when other parts of it are written, and what makes it lay nodes anew.
//!
//! A `Piece` is a part of a file that is to be written. `Scattered` says what any writes of pieces leave, cut short or not, and `HoldsEach` what stands once all were made. A file keeps its nodes where its pages and blocks keep their bytes (`lays_kept`), so that what it stands for (`FileStands`, `Stands`) stays while pieces are written beside them (`plan_commits`), and under another header over the same trees (`unmapped_commits`, `mapped_commits`). `renewed` makes a file stand for changed nodes from the facts that a planner gives one by one (`Renews`); pages written anew level by level are trees (`row_up`), blocks and pages that were sealed for their place stand there, and places that were taken from free slots meet nothing (`beside_free`, `placed_once`).
//!
//! Leaves to others: the calls that write, and the choice of places.
#![tactic(auto)]

use pst_base::Bytes;

/// A part of a file that is to be written: where, and its bytes.
#[derive(Debug, Drop)]
pub struct Piece {
    pub at: u64,
    pub bytes: Bytes,
}
