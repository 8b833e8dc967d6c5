//! The places of the folders after a command on a search folder.
ghost use Rattle.std.specs.Prelude.{◌≡◌, IfOk};
ghost use Rattle.mapi_values.specs.Keyed.{put_key};
ghost use Rattle.mail_tree.specs.Places.{place_id};
ghost use Rattle.mail_searches.specs.Criteria.{search_place};

use mail_tree::{FolderPlace, Places, Sort};
use pst_base::Nid;
use std::alloc::{AllocError, Global};

/// The places with a search folder in a parent.
pub(crate) fn with_place(
    alloc: Global,
    places: &Places,
    search: Nid,
    parent: Nid,
) -> Result<Places, AllocError>
    ensures { IfOk result (λ p. p ≡ put_key place_id (search_place search.bits parent.bits) places.now) }
{
    let mut after = places.copy(alloc)?;
    after.put(FolderPlace {
        nid: search,
        parent,
        sort: Sort::Foreign,
    })?;
    Ok(after)
}
