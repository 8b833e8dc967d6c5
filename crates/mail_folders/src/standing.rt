//! The places of the folders after a command.
ghost use Rattle.std.specs.Prelude.{◌≡◌, IfErr, IfOk};
ghost use Rattle.mapi_values.specs.Keyed.{drop_key, put_key};
ghost use Rattle.mail_tree.specs.Changing.{refused_if};
ghost use Rattle.mail_tree.specs.Folders.{place};
ghost use Rattle.mail_tree.specs.Places.{is_deep, is_within, moves_deep, place_id};
ghost use Rattle.mail_draft.specs.Answers.{IsCalm, Says};
ghost use Rattle.command_text.specs.declared.reply.CommandRefusal.TheVariants.{Cycle, Limit as Passes};
ghost use Rattle.command_text.specs.declared.reply.Limit.TheVariants.{Depth};

use command_text::{CommandRefusal, Limit};
use mail_draft::Stop;
use mail_tree::{FolderPlace, Places, Sort};
use pst_base::Nid;
use std::alloc::{AllocError, Global};

/// The places with a plain folder in a parent.
pub(crate) fn with_place(
    alloc: Global,
    places: &Places,
    folder: Nid,
    parent: Nid,
) -> Result<Places, AllocError>
    ensures { IfOk result (λ p. p ≡ put_key place_id (place folder.bits parent.bits) places.now) }
{
    let mut after = places.copy(alloc)?;
    after.put(FolderPlace {
        nid: folder,
        parent,
        sort: Sort::Plain,
    })?;
    Ok(after)
}

/// The places without a folder.
pub fn without_place(alloc: Global, places: &Places, folder: Nid) -> Result<Places, AllocError>
    ensures { IfOk result (λ p. p ≡ drop_key place_id folder.bits places.now) }
{
    let mut after = places.copy(alloc)?;
    after.remove(folder);
    Ok(after)
}

/// Refused where a new folder in a parent would stand below more than 64 others.
pub fn unless_deep(alloc: Global, places: &Places, parent: Nid) -> Result<(), Stop>
    ensures answer { Says (λ u. u) (refused_if (is_deep places.now parent.bits) (Passes Depth)) result }
    ensures calm { IfErr result IsCalm }
{
    if places.is_deep(alloc, parent)? {
        return Err(Stop::Refused(CommandRefusal::Limit(Limit::Depth)));
    }
    Ok(())
}

/// Refused where a folder, moved into a parent, would put some folder below more than 64 others.
pub fn unless_moves_deep(
    alloc: Global,
    places: &Places,
    folder: Nid,
    parent: Nid,
) -> Result<(), Stop>
    ensures answer { Says (λ u. u) (refused_if (moves_deep places.now folder.bits parent.bits) (Passes Depth)) result }
    ensures calm { IfErr result IsCalm }
{
    if places.moves_deep(alloc, folder, parent)? {
        return Err(Stop::Refused(CommandRefusal::Limit(Limit::Depth)));
    }
    Ok(())
}

/// Refused where a parent is the folder itself, or stands below it.
pub fn unless_within(alloc: Global, places: &Places, folder: Nid, parent: Nid) -> Result<(), Stop>
    ensures answer { Says (λ u. u) (refused_if (is_within places.now folder.bits parent.bits) Cycle) result }
    ensures calm { IfErr result IsCalm }
{
    if places.is_within(alloc, folder, parent)? {
        return Err(Stop::Refused(CommandRefusal::Cycle));
    }
    Ok(())
}
