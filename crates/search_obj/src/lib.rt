//! The criteria of a search folder: how it is done, which folders it is about and what it asks of a message, as the values of its criteria object hold them.
//!
//! Promises: `read_search` gives the criteria that an object says (`Says`), nothing of the object of another program's search (`IsForeign`), and a refusal of one that is marked and says none (`IsFaulty`). What `write_search` makes says its criteria, and the other values stay. `SearchFlags::from_number` takes just the flags that a search may have (`flags_of`), `Criteria::changed` is what a line makes of criteria (`changed`), and `scope_of` finds the plain folders in the scope (`in_scope`).
//!
//! Leaves to others: the restrictions themselves, the list of a search, and where its nodes stand.
#![tactic(auto)]

mod changing;
mod criteria;
mod flags;
mod law;
mod reading;
mod scoping;
mod values;
mod writing;

pub use changing::NoCriteria;
pub use criteria::{Criteria, CriteriaSet, Version};
pub use flags::{SearchFlags, SearchState};
pub use law::{
    criteria_are_unique, flags_are_their_number, parents_decide, scopes_have_the_given_folders,
};
pub use reading::{CriteriaFault, read_search};
pub use scoping::scope_of;
pub use values::{SEARCH_BUILDS, SEARCH_FLAGS, SEARCH_MARK, SEARCH_RESTRICTION, SEARCH_SCOPE};
pub use writing::write_search;
