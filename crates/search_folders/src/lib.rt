//! The commands on search folders.
//!
//! Promises: `make_search`, `set_criteria`, `get_criteria`, `list_folder`, `rename_search`, `move_search` and `remove_search` give what the definitions say of `mksearch`, `criteria`, `getcriteria`, `ls`, `rename`, `mvdir` and `rmdir` where there are searches, of every tree that the desk shows; what changes stands in the desk's draft.
//!
//! Leaves to others: what the definitions mean (`mail_searches`), how lists follow messages (`search_results`), and carrying the changes out.
#![tactic(auto)]

mod building;
mod coming;
mod criteria;
mod given;
mod indexes;
mod listing;
mod making;
mod moving;
mod nodes;
mod outcome;
mod places;
mod telling;

pub use building::find_below;
pub use coming::Coming;
pub use criteria::{saying, set_criteria};
pub use listing::list_folder;
pub use mail_draft;
pub use mail_folders;
pub use making::make_search;
pub use moving::{move_search, remove_search, rename_search};
pub use outcome::SearchOutcome;
pub use search_results;
pub use telling::{criteria_at, get_criteria};
