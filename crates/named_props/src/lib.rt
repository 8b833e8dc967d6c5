//! The names of properties ([MS-PST] 2.4.7): which number under which GUID is the name of a property with an id of 8000h or more, as the values of one node hold it.
//!
//! Promises: `read_names` gives the names that values hold (`names_of`) exactly where they have the form, and what `write_names` makes holds the names again. `lookup_or_add` finds the property of a name (`name_at`), or adds the name at the end of both streams and of its bucket (`added`), exactly where there is room (`is_full`). `has_name` says whether a property has a name.
//!
//! Leaves to others: names that are strings, which are kept and not read, and where the node stands.
#![tactic(auto)]

mod add;
mod buckets;
mod entries;
mod entry;
mod guids;
mod law;
mod names;
mod read;
mod values;
mod write;

pub use add::NamesFull;
pub use entries::NameEntries;
pub use entry::NameEntry;
pub use guids::{Guids, PS_MAPI, PS_PUBLIC_STRINGS};
pub use law::finds_what_was_added;
pub use names::Names;
pub use read::{NamesFault, read_names};
pub use write::write_names;
