//! The program as one call: `run` takes the words of the command line and a world, and answers with a status.
//!
//! Promises: the words are one of the forms, or the status is 2 and nothing was asked of the world; each form ends as `InfoEnds`, `NodesEnds`, `NewEnds`, `RunEnds`, `LookEnds`, `DecodeEnds`, `CompactEnds`, `MendEnds`, `FillEnds` and `ScratchEnds` say. The headline is the clause `run` of the call.
//!
//! Promises, over any world that tells what it holds: `say_info` says exactly what the two files' bytes are (`InfoEnds`), and `say_nodes` says the lines of the one node map that they lay, or a refusal that holds of them (`NodesEnds`). `serve_memory` answers lines as the same session as that of `run_lines` does, over a new store in memory, where want of room hinders nothing (`ScratchEnds`, `Serves`). `look_lines` answers lines that only read by the tree that the files are read as, whatever its searches list (`LookEnds`, `LookRun`). These four write nothing. `say_decoded` writes into the copy, and where it says so, that is the file's bytes with each data block decoded and a header that says that nothing is encoded; the files themselves are at every moment as they were, and a copy that has bytes stays (`DecodeEnds`). `say_compacted` writes into the copy the tree of the files without holes, under the same (`CompactEnds`). `say_mended` mends the searches of the tree that the files are read as, and a stop at any moment leaves files that are read as the tree with the first of them mended (`MendEnds`). `run_lines` answers lines over the tree that the files are read as, and a stop at any moment leaves files that are read as the tree after some of them, among them each whose reply had begun (`RunEnds`). `make` makes files that are read as the tree of a new store, and leaves files that have bytes as they are (`NewEnds`). Each status has its cause.
//!
//! Leaves to others: the session over a file and its opening (`file_session`), how the input is cut into lines and the replies are said (`line_server`), what a real file, terminal or pipe holds (`pst_outside::FileWorld`), and the texts on standard error (`pstore`).
#![tactic(auto)]

mod call;
mod compact;
mod compacting;
mod copied;
mod decode;
mod exit;
mod file_texts;
mod files;
mod fill;
mod info;
mod look;
mod looking;
mod mailbox;
mod memory;
mod mend;
mod nodes;
mod nowhere;
mod pinning;
mod scratch;
mod texts;
mod words;

pub use call::run;
pub use exit::{ChangedAt, Exit, Status};
pub use words::Form;
