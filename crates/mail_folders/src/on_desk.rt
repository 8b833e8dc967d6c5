//! The commands over a desk, and the parts of them that commands on other folders share.
pub use crate::ending::moving;
pub use crate::list::{line_of_message, list_folder};
pub use crate::making::{make_folder, unless_full};
pub use crate::moving::{move_folder, moved_between, unless_crowds_name};
pub use crate::names::unless_child_named;
pub use crate::protecting::unless_protected;
pub use crate::removing::remove_folder;
pub use crate::renaming::{named_anew, rename_folder, unless_beside};
