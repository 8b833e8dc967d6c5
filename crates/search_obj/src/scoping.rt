//! The folders that a search is about.
ghost use Rattle.std.specs.Prelude.{◌≡◌, ◌&&◌, ℕ, IfOk, IsTrue, map, ◌||◌};
ghost use Rattle.mapi_values.specs.Keyed.{keys_ascend};
ghost use Rattle.search_obj.specs.Scope.{ids_of_pair, in_scope, is_among, is_member, member_id};

use crate::criteria::CriteriaSet;
use mapi_values::{Keyed, find_keyed, put_keyed};
use pst_base::Nid;
use std::alloc::{AllocError, Global};

/// A folder in a set of folders, which ascend.
#[derive(Clone, Copy, Debug, Drop)]
struct Member {
    nid: Nid,
}

impl Keyed for Member {
    ghost key_of = { λ m. m.nid.bits };

    fn key(&self) -> u32 {
        self.nid.bits
    }
}

/// Whether a folder is in a set.
fn is_member(members: &[Member], folder: Nid) -> bool
    requires { IsTrue (keys_ascend member_id 0 members.now) }
    ensures { result ≡ is_member members.now folder.bits }
{
    find_keyed(members, folder.bits).is_some()
}

/// The set of these folders.
fn members_of(alloc: Global, folders: &[Nid]) -> Result<Vec<Member>, AllocError>
    ensures ascend { IfOk result (λ members. IsTrue (keys_ascend member_id 0 members.items)) }
    ensures exact { IfOk result (λ members. (f : ℕ) → is_member members.items f ≡ is_among (map (λ n. n.bits) folders.now) f) }
{
    let mut members = Vec::new(alloc);
    for folder in folders {
        put_keyed(&mut members, Member { nid: *folder })?;
    }
    Ok(members)
}

/// Whether a folder is in a scope: it is given, or folders below are searched too and its parent is in the scope.
fn is_taken(deep: bool, given: &[Member], members: &[Member], folder: Nid, parent: Nid) -> bool
    requires given { IsTrue (keys_ascend member_id 0 given.now) }
    requires members { IsTrue (keys_ascend member_id 0 members.now) }
    ensures { result ≡ ((deep && is_member members.now parent.bits) || is_member given.now folder.bits) }
{
    deep && is_member(members, parent) || is_member(given, folder)
}

/// The plain folders in the scope of a search, as a set.
#[tactic(auto, unfolding(crate::specs::Scope::in_scope))]
fn members_in_scope(
    alloc: Global,
    set: &CriteriaSet,
    plain: &[(Nid, Nid)],
) -> Result<Vec<Member>, AllocError>
    ensures ascend { IfOk result (λ members. IsTrue (keys_ascend member_id 0 members.items)) }
    ensures exact { IfOk result (λ members. (f : ℕ) → is_member members.items f ≡ in_scope set.now (map ids_of_pair plain.now) f) }
{
    let given = members_of(alloc, set.scope.as_slice())?;
    let mut members = Vec::new(alloc);
    for place in plain {
        let (folder, parent) = *place;
        let deep = set.flags.recursive;
        if is_taken(deep, given.as_slice(), members.as_slice(), folder, parent) {
            put_keyed(&mut members, Member { nid: folder })?;
        }
    }
    Ok(members)
}

/// The folders of a set.
fn folders_of(alloc: Global, members: &[Member]) -> Result<Vec<Nid>, AllocError>
    ensures { IfOk result (λ folders. folders.items ≡ map (λ m. m.nid) members.now) }
{
    members.iter().map(|member| member.nid).collect(alloc)
}

/// The plain folders in the scope of a search, ascending: those that it is given, and where it is recursive those below them. `plain` has each plain folder with its parent, a folder after its parent.
pub fn scope_of(
    alloc: Global,
    set: &CriteriaSet,
    plain: &[(Nid, Nid)],
) -> Result<Vec<Nid>, AllocError>
    ensures ascend { IfOk result (λ folders. IsTrue (keys_ascend (λ n. n.bits) 0 folders.items)) }
    ensures exact { IfOk result (λ folders. (f : ℕ) → is_among (map (λ n. n.bits) folders.items) f ≡ in_scope set.now (map ids_of_pair plain.now) f) }
{
    let members = members_in_scope(alloc, set, plain)?;
    let folders = folders_of(alloc, members.as_slice())?;
    Ok(folders)
}
