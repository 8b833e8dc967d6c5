//! The criteria object of a search, turned into one of the second version.
ghost use Rattle.std.specs.Prelude.{◌≡◌};
ghost use Rattle.mail_tree.specs.Changing.{nothing};
ghost use Rattle.store_session.specs.mail_draft.Sight.{Changes, Drafts};
ghost use Rattle.search_mending.specs.Mending.{is_first, turned};

use mail_objects::Context;
use pst_base::Nid;
use search_obj::{Criteria, Version};
use store_session::mail_draft::{Desk, Stop};
use store_session::search_folders::saying;

/// Whether criteria stand in an object of the first version.
pub(crate) fn is_first(criteria: &Criteria) -> bool
    ensures { result ≡ is_first criteria.now.version }
{
    match criteria.version {
        Version::First => true,
        Version::Second => false,
    }
}

/// Makes the criteria object of a search, whose context and criteria are given, one of the second version that says the same. Nothing is changed where it is so already.
#[tactic(auto, unfolding(search_mending::specs::Mending::turned))]
pub(crate) fn turned<D: Desk>(
    desk: &mut D,
    search: Nid,
    context: Context,
    criteria: Criteria,
) -> Result<(), Stop>
    requires fresh { (D.view desk.old).changed ≡ nothing }
    ensures drafts { Drafts (D.view desk.old) (D.view desk.new) result }
    ensures answer { Changes (D.view desk.old) (D.view desk.new) (λ T c. turned search.bits context criteria) result }
{
    if !is_first(&criteria) {
        return Ok(());
    }
    saying(desk, search, context, &criteria.migrated())?;
    Ok(())
}
