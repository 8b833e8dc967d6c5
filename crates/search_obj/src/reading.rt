//! Reading criteria.
ghost use Rattle.std.specs.Prelude.{◌≡◌, ◌*◌, ◌<◌, ◌^◌, IfOk, IfSome, IfErr, IsTrue, Some, length, map};
ghost use Rattle.std.specs.Option.{option_map};
ghost use Rattle.restr_codec.specs.Spelling.{has_spelling, spelling};
ghost use Rattle.pst_base.specs.Stops.{Finds};
ghost use Rattle.search_obj.specs.Crits.{CritSet, IsSound, IsSoundSet, suits};
ghost use Rattle.search_obj.specs.Objects.{SaysIfSet, SaysSet, bytes_at, number_in, search_restriction, text_bytes};
ghost use Rattle.search_obj.specs.Found.{StopsAtFault, Tells, builds_found, crit_found, flags_found, restriction_found, scope_found, set_found, version_found, version_marked};

use crate::criteria::{Criteria, CriteriaSet, Version};
use crate::flags::SearchFlags;
use crate::values::{
    FIRST_MARK, SEARCH_BUILDS, SEARCH_FLAGS, SEARCH_MARK, SEARCH_RESTRICTION, SEARCH_SCOPE,
    SECOND_MARK, bytes_at, lacks, lacks_criteria, number_with,
};
use mapi_values::Props;
use pst_base::{MemOr, Nid, u32_at};
use restr_codec::{Restriction, read};
use std::alloc::{AllocError, Global};

/// A criteria object of this program whose values say no criteria.
#[derive(Clone, Copy, Debug, PartialEq, Eq)]
pub struct CriteriaFault;

/// The version with this mark.
fn version_marked(bytes: &[u8]) -> Option<Version>
    ensures { result ≡ version_marked bytes.now }
{
    if bytes == FIRST_MARK.as_slice() {
        Some(Version::First)
    } else if bytes == SECOND_MARK.as_slice() {
        Some(Version::Second)
    } else {
        None
    }
}

/// The bytes of a text's whole units: an odd last byte is no part of it.
fn text_bytes(bytes: &[u8]) -> &[u8]
    ensures { result.now ≡ text_bytes bytes.now }
{
    &bytes[..bytes.len() - bytes.len() % 2]
}

/// The version of an object, if it is one of this program.
#[tactic(auto, unfolding(crate::specs::Found::version_found))]
fn version_at(props: &Props) -> Option<Version>
    ensures { result ≡ version_found props.now }
{
    let bytes = bytes_at(props, SEARCH_MARK)?;
    version_marked(text_bytes(bytes))
}

/// The flags, if a search may have them.
#[tactic(auto, unfolding(crate::specs::Found::flags_found))]
fn flags_at(props: &Props) -> Option<SearchFlags>
    ensures { result ≡ flags_found props.now }
{
    let number = number_with(props, SEARCH_FLAGS)?;
    SearchFlags::from_number(number)
}

/// The ids in 4 bytes each.
fn read_ids(alloc: Global, chunks: &[[u8; 4]]) -> Result<Vec<Nid>, AllocError>
    ensures ids { IfOk result (λ ids. map (λ n. n.bits) ids.items ≡ map number_in chunks.now) }
    ensures len { IfOk result (λ ids. length ids.items ≡ length chunks.now) }
{
    let mut ids = Vec::with_capacity(alloc, chunks.len())?;
    for chunk in chunks {
        ids.push(Nid {
            bits: u32_at(chunk, 0),
        })?;
    }
    Ok(ids)
}

/// The folders that were given.
#[tactic(auto, unfolding(crate::specs::Found::scope_found))]
fn scope_at(alloc: Global, props: &Props) -> Result<Option<Vec<Nid>>, AllocError>
    ensures scope { IfOk result (λ found. option_map (λ ids. map (λ n. n.bits) ids.items) found ≡ scope_found props.now) }
    ensures fits { IfOk result (λ found. IfSome found (λ ids. 4 * length ids.items < 2 ^ 32)) }
{
    let Some(bytes) = bytes_at(props, SEARCH_SCOPE) else {
        return Ok(None);
    };
    let (ids, rest) = bytes.as_chunks::<4>();
    if rest.len() > 0 {
        return Ok(None);
    }
    Ok(Some(read_ids(alloc, ids)?))
}

/// The restriction.
#[tactic(auto, unfolding(crate::specs::Found::restriction_found))]
fn restriction_at(alloc: Global, props: &Props) -> Result<Option<Restriction>, AllocError>
    ensures restriction { IfOk result (λ found. found ≡ restriction_found props.now) }
    ensures bytes { IfOk result (λ found. IfSome found (λ r. bytes_at search_restriction props.now ≡ Some (spelling r))) }
    ensures spelled { IfOk result (λ found. IfSome found (λ r. IsTrue (has_spelling r))) }
    ensures fits { IfOk result (λ found. IfSome found (λ r. length (spelling r) < 2 ^ 32)) }
{
    let Some(bytes) = bytes_at(props, SEARCH_RESTRICTION) else {
        return Ok(None);
    };
    match read(alloc, bytes) {
        Ok(restriction) => Ok(Some(restriction)),
        Err(MemOr::Refused(_)) => Ok(None),
        Err(MemOr::Memory) => Err(AllocError),
    }
}

/// How often the list was built, as an object of the version says it.
#[tactic(auto, unfolding(crate::specs::Found::builds_found))]
fn builds_at(version: Version, props: &Props) -> Option<u32>
    ensures builds { result ≡ builds_found version props.now }
    ensures fit { IfSome result (λ builds. builds < 2 ^ 31) }
{
    match version {
        Version::First => {
            if lacks(props, SEARCH_BUILDS.id) {
                Some(1)
            } else {
                None
            }
        }
        Version::Second => {
            let builds = number_with(props, SEARCH_BUILDS)?;
            if builds < 0x8000_0000 {
                Some(builds)
            } else {
                None
            }
        }
    }
}

/// Whether an object of the version can hold criteria with these flags and builds.
fn suits(version: Version, flags: SearchFlags, builds: u32) -> bool
    ensures { (s : CritSet) → s.flags ≡ flags → s.builds ≡ builds → result ≡ suits version (Some s) }
{
    match version {
        Version::First => !flags.stop && !flags.static_search && builds == 1,
        Version::Second => true,
    }
}

/// What was set, where anything was.
#[tactic(auto, unfolding(crate::specs::Found::set_found))]
fn read_set(
    alloc: Global,
    version: Version,
    props: &Props,
) -> Result<CriteriaSet, MemOr<CriteriaFault>>
    ensures exact { Finds (λ s. s) result (set_found version props.now) }
    ensures says { IfOk result (SaysSet props.now version) }
    ensures suits { IfOk result (λ s. IsTrue (suits version (Some s))) }
    ensures sound { IfOk result (λ s. IsSoundSet s.flags s.scope s.restriction s.builds) }
{
    let Some(flags) = flags_at(props) else {
        return Err(MemOr::Refused(CriteriaFault));
    };
    let Some(scope) = scope_at(alloc, props)? else {
        return Err(MemOr::Refused(CriteriaFault));
    };
    let Some(restriction) = restriction_at(alloc, props)? else {
        return Err(MemOr::Refused(CriteriaFault));
    };
    let Some(builds) = builds_at(version, props) else {
        return Err(MemOr::Refused(CriteriaFault));
    };
    if !suits(version, flags, builds) {
        return Err(MemOr::Refused(CriteriaFault));
    }
    Ok(CriteriaSet {
        flags,
        scope,
        restriction,
        builds,
    })
}

/// The criteria of an object of this version.
#[tactic(auto, unfolding(crate::specs::Found::crit_found))]
fn read_criteria(
    alloc: Global,
    version: Version,
    props: &Props,
) -> Result<Criteria, MemOr<CriteriaFault>>
    ensures exact { Finds (λ c. c) result (crit_found version props.now) }
    ensures version { IfOk result (λ c. c.version ≡ version) }
    ensures says { IfOk result (λ c. SaysIfSet props.now version c.set) }
    ensures sound { IfOk result IsSound }
{
    if lacks_criteria(props) {
        return Ok(Criteria { version, set: None });
    }
    let set = read_set(alloc, version, props)?;
    Ok(Criteria {
        version,
        set: Some(set),
    })
}

/// The criteria that the values of a criteria object say, or `None` of the object of another program's search, which is one without a mark of ours. A refusal comes exactly where an object with a mark says no criteria: some of their values are missing or too many, the scope isn't whole ids, a search may not have the flags, the restriction can't be read, or an object of the first version has a search that is stopped or static.
pub fn read_search(alloc: Global, props: &Props) -> Result<Option<Criteria>, MemOr<CriteriaFault>>
    ensures read { IfOk result (Tells props.now) }
    ensures fault { IfErr result (StopsAtFault props.now) }
{
    let Some(version) = version_at(props) else {
        return Ok(None);
    };
    let criteria = read_criteria(alloc, version, props)?;
    Ok(Some(criteria))
}
