//! The ids of a folder's tables.
ghost use Rattle.std.specs.Prelude.{◌≡◌};
ghost use Rattle.mail_tree.specs.Changing.{associated, contents, hierarchy};

use pst_base::{Nid, make_nid};

/// The table of a folder's folders.
pub fn hierarchy(folder: Nid) -> Nid
    ensures { result.bits ≡ hierarchy folder.bits }
{
    make_nid(0x0D, folder.index())
}

/// The table of a folder's messages.
pub fn contents(folder: Nid) -> Nid
    ensures { result.bits ≡ contents folder.bits }
{
    make_nid(0x0E, folder.index())
}

/// The table of what is associated with a folder.
pub fn associated(folder: Nid) -> Nid
    ensures { result.bits ≡ associated folder.bits }
{
    make_nid(0x0F, folder.index())
}
