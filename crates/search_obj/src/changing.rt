//! What a line of criteria makes of a search.
ghost use Rattle.std.specs.Prelude.{◌≡◌, ◌*◌, ◌<◌, ◌^◌, IfOk, IfSome, IsTrue, length, map};
ghost use Rattle.std.specs.Option.{ForSome, option_map};
ghost use Rattle.pst_base.specs.Stops.{Finds};
ghost use Rattle.restr_codec.specs.Spelling.{has_spelling, spelling};
ghost use Rattle.search_obj.specs.Flags.{are_allowed};
ghost use Rattle.search_obj.specs.Changing.{builds_after, builds_before, changed, given_or_kept, migrated, state_in, unset};

use crate::criteria::{Criteria, CriteriaSet, Version};
use crate::flags::{SearchFlags, SearchState};
use pst_base::{MemOr, Nid};
use restr_codec::Restriction;
use std::alloc::{AllocError, Global};

/// The greatest number of builds that is told.
const MOST_BUILDS: u32 = 2_147_483_647;

/// A scope or a restriction is to be kept of a search that has no criteria.
#[derive(Clone, Copy, Debug, PartialEq, Eq)]
pub struct NoCriteria;

/// How often the list of a search was built after a line with these flags.
#[tactic(auto, unfolding(crate::specs::Changing::builds_after))]
fn builds_after(flags: SearchFlags, builds: u32) -> u32
    requires { builds < 2 ^ 31 }
    ensures value { result ≡ builds_after flags builds }
    ensures fit { result < 2 ^ 31 }
{
    if flags.stop {
        builds
    } else {
        (builds + 1).min(MOST_BUILDS)
    }
}

/// How often the list was built, never where nothing was set.
fn builds_before(set: &Option<CriteriaSet>) -> u32
    ensures value { result ≡ builds_before set.now }
    ensures fit { result < 2 ^ 31 }
{
    match set {
        Some(set) => set.builds,
        None => 0,
    }
}

/// The scope that is given, or else the one that stands, if any does.
fn given_scope(
    alloc: Global,
    set: &Option<CriteriaSet>,
    scope: Option<Vec<Nid>>,
) -> Result<Option<Vec<Nid>>, AllocError>
    requires { ForSome scope (λ ids. 4 * length ids.items < 2 ^ 32) }
    ensures value { IfOk result (λ kept. option_map (λ ids. map (λ n. n.bits) ids.items) kept ≡ given_or_kept (λ s. s.scope) set.now (option_map (λ ids. map (λ n. n.bits) ids.items) scope)) }
    ensures fits { IfOk result (λ kept. IfSome kept (λ ids. 4 * length ids.items < 2 ^ 32)) }
{
    if let Some(scope) = scope {
        return Ok(Some(scope));
    }
    match set {
        Some(set) => Ok(Some(Vec::from_slice(alloc, set.scope.as_slice())?)),
        None => Ok(None),
    }
}

/// The restriction that is given, or else the one that stands, if any does.
fn given_restriction(
    alloc: Global,
    set: &Option<CriteriaSet>,
    restriction: Option<Restriction>,
) -> Result<Option<Restriction>, AllocError>
    requires spelled { ForSome restriction (λ r. IsTrue (has_spelling r)) }
    requires fits { ForSome restriction (λ r. length (spelling r) < 2 ^ 32) }
    ensures value { IfOk result (λ kept. kept ≡ given_or_kept (λ s. s.restriction) set.now restriction) }
    ensures spelled { IfOk result (λ kept. IfSome kept (λ r. IsTrue (has_spelling r))) }
    ensures fits { IfOk result (λ kept. IfSome kept (λ r. length (spelling r) < 2 ^ 32)) }
{
    if let Some(restriction) = restriction {
        return Ok(Some(restriction));
    }
    match set {
        Some(set) => Ok(Some(set.restriction.copy(alloc)?)),
        None => Ok(None),
    }
}

impl Criteria {
    /// The criteria of a new search: none are set.
    pub fn unset() -> Criteria
        ensures { result ≡ unset }
    {
        Criteria {
            version: Version::Second,
            set: None,
        }
    }

    /// The same criteria in an object of the second version.
    pub fn migrated(self) -> Criteria
        ensures { result ≡ migrated self }
    {
        Criteria {
            version: Version::Second,
            set: self.set,
        }
    }

    /// What the search does as messages change. `None` where nothing was set: then it lists nothing.
    pub fn state(&self) -> Option<SearchState>
        ensures { result ≡ state_in self.now }
    {
        match &self.set {
            Some(set) => Some(set.flags.state()),
            None => None,
        }
    }

    /// The criteria after a line with these flags, which a search may have, and with the scope and the restriction, where `None` keeps what stands. The list is built once more, unless the flags stop the search. A refusal comes exactly where something is to be kept and nothing was set.
    #[tactic(auto, unfolding(crate::specs::Changing::changed))]
    pub fn changed(
        &self,
        alloc: Global,
        flags: SearchFlags,
        scope: Option<Vec<Nid>>,
        restriction: Option<Restriction>,
    ) -> Result<Criteria, MemOr<NoCriteria>>
        requires allowed { IsTrue (are_allowed flags) }
        requires scope_fits { ForSome scope (λ ids. 4 * length ids.items < 2 ^ 32) }
        requires spelled { ForSome restriction (λ r. IsTrue (has_spelling r)) }
        requires restriction_fits { ForSome restriction (λ r. length (spelling r) < 2 ^ 32) }
        ensures { Finds (λ c. c) result (changed self.now flags (option_map (λ ids. map (λ n. n.bits) ids.items) scope) restriction) }
    {
        let Some(scope) = given_scope(alloc, &self.set, scope)? else {
            return Err(MemOr::Refused(NoCriteria));
        };
        let Some(restriction) = given_restriction(alloc, &self.set, restriction)? else {
            return Err(MemOr::Refused(NoCriteria));
        };
        let builds = builds_after(flags, builds_before(&self.set));
        Ok(Criteria {
            version: Version::Second,
            set: Some(CriteriaSet {
                flags,
                scope,
                restriction,
                builds,
            }),
        })
    }
}
