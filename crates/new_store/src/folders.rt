//! The folders of a new store: their ids and names.

/// The root, which is its own parent.
pub const ROOT: u32 = 0x122;
/// The folder in which mail is kept.
pub const TOP: u32 = 0x8022;
/// The folder of search folders.
pub const SEARCH_ROOT: u32 = 0x8042;
/// The folder of what was deleted.
pub const DELETED: u32 = 0x8062;

/// The names of the three folders in the root.
pub const TOP_NAME: &[u8] = b"Top of Personal Folders";

pub const SEARCH_NAME: &[u8] = b"Search Root";

pub const DELETED_NAME: &[u8] = b"Deleted Items";
