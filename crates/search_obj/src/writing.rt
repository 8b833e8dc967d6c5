//! Writing criteria.
ghost use Rattle.std.specs.Prelude.{◌≡◌, ◌<◌, IfOk, IsTrue, OnOk, Some, ℕ, false, length, map};
ghost use Rattle.std.specs.List.{list_all};
ghost use Rattle.mapi_values.specs.Properties.{find, put};
ghost use Rattle.mapi_values.specs.Values.{fits};
ghost use Rattle.search_obj.specs.Crits.{IsSound, IsSoundSet};
ghost use Rattle.search_obj.specs.Objects.{Says};
ghost use Rattle.search_obj.specs.Writing.{are_ids, id_bytes, is_criteria_id, is_id, number_value, value_of, with_builds, with_set, written};

use crate::criteria::{Criteria, CriteriaSet, Version};
use crate::values::{
    SEARCH_BUILDS, SEARCH_FLAGS, SEARCH_MARK, SEARCH_RESTRICTION, SEARCH_SCOPE, mark,
};
use mapi_values::{Props, Tag, Value};
use pst_base::{Bytes, Nid};
use restr_codec::write;
use std::alloc::{AllocError, Global};

/// Puts the value with a tag. An `Err` leaves properties that are to be given up, here and below.
fn put_bytes(props: &mut Props, tag: Tag, bytes: Bytes) -> Result<(), AllocError>
    requires { IsTrue (fits tag.kind (length bytes)) }
    ensures { OnOk result (props.new ≡ put (value_of tag bytes) props.old) }
{
    props.put(Value::new(tag, bytes))
}

/// Puts the number with a tag, whose kind is that of numbers of 4 bytes.
fn put_number(alloc: Global, props: &mut Props, tag: Tag, number: u32) -> Result<(), AllocError>
    requires { tag.kind ≡ 3 }
    ensures { OnOk result (props.new ≡ put (number_value tag number) props.old) }
{
    let bytes = Bytes::from_slice(alloc, &number.to_le_bytes())?;
    put_bytes(props, tag, bytes)
}

/// The bytes of ids, 4 for each.
fn id_bytes(alloc: Global, ids: &[Nid]) -> Result<Vec<u8>, AllocError>
    ensures bytes { IfOk result (λ v. v.items ≡ id_bytes (map (λ n. n.bits) ids.now)) }
    ensures fit { IfOk result (λ _. IsTrue (list_all is_id (map (λ n. n.bits) ids.now))) }
{
    let mut bytes = Vec::new(alloc);
    for id in ids {
        bytes.extend_from_slice(&id.bits.to_le_bytes())?;
    }
    Ok(bytes)
}

/// Puts the number of builds, as an object of the version has it.
fn put_builds(
    alloc: Global,
    props: &mut Props,
    version: Version,
    builds: u32,
) -> Result<(), AllocError>
    ensures { OnOk result (props.new ≡ with_builds version builds props.old) }
{
    match version {
        Version::First => {
            props.remove(SEARCH_BUILDS.id);
            Ok(())
        }
        Version::Second => put_number(alloc, props, SEARCH_BUILDS, builds),
    }
}

/// Puts what was set.
fn put_set(
    alloc: Global,
    props: &mut Props,
    version: Version,
    set: &CriteriaSet,
) -> Result<(), AllocError>
    ensures values { OnOk result (props.new ≡ with_set version (Some set.now) props.old) }
    ensures fit { OnOk result (IsTrue (list_all is_id set.now.scope)) }
    ensures sound { IsSoundSet set.now.flags set.now.scope set.now.restriction set.now.builds }
{
    let scope = id_bytes(alloc, set.scope.as_slice())?;
    let restriction = write(alloc, &set.restriction)?;
    put_number(alloc, props, SEARCH_FLAGS, set.flags.number())?;
    put_bytes(props, SEARCH_SCOPE, Bytes::from_vec(scope))?;
    put_bytes(props, SEARCH_RESTRICTION, restriction)?;
    put_builds(alloc, props, version, set.builds)
}

/// Puts what was set, or removes its values where nothing was.
fn put_criteria(alloc: Global, props: &mut Props, criteria: &Criteria) -> Result<(), AllocError>
    ensures values { OnOk result (props.new ≡ with_set criteria.now.version criteria.now.set props.old) }
    ensures fit { OnOk result (IsTrue (are_ids criteria.now.set)) }
    ensures sound { OnOk result (IsSound criteria.now) }
{
    match &criteria.set {
        Some(set) => {
            put_set(alloc, props, criteria.version, set)?;
            Ok(())
        }
        None => {
            props.remove(SEARCH_FLAGS.id);
            props.remove(SEARCH_SCOPE.id);
            props.remove(SEARCH_RESTRICTION.id);
            props.remove(SEARCH_BUILDS.id);
            Ok(())
        }
    }
}

/// The values of a criteria object with these criteria in place of its own: from them `read_search` gives these criteria. The other values stay.
#[tactic(auto, unfolding(crate::specs::Writing::written))]
pub fn write_search(alloc: Global, props: Props, criteria: &Criteria) -> Result<Props, AllocError>
    ensures values { IfOk result (λ p. p ≡ written criteria.now props) }
    ensures says { IfOk result (λ p. Says p criteria.now) }
    ensures others { IfOk result (λ p. (id : ℕ) → is_criteria_id id ≡ false → find id p ≡ find id props) }
{
    let mut props = props;
    // That the values ascend is known once they are looked at.
    let _ = props.values();
    put_criteria(alloc, &mut props, criteria)?;
    let text = Bytes::from_slice(alloc, mark(criteria.version))?;
    put_bytes(&mut props, SEARCH_MARK, text)?;
    Ok(props)
}
