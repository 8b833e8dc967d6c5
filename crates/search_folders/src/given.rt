//! What a line of criteria gives.
ghost use Rattle.std.specs.Prelude.{Option, ◌≡◌, ◌*◌, ◌<◌, ◌^◌, map, length, Some, IfErr, IfOk, IsTrue, ◌||◌};
ghost use Rattle.std.specs.List.{list_all};
ghost use Rattle.std.specs.Option.{ForSome, option_map};
ghost use Rattle.pst_base.specs.Stops.{Finds};
ghost use Rattle.restr_codec.specs.Reading.{reading};
ghost use Rattle.restr_codec.specs.Spelling.{has_spelling, spelling};
ghost use Rattle.search_obj.specs.Changing.{changed};
ghost use Rattle.search_obj.specs.Crits.{Crit};
ghost use Rattle.search_obj.specs.Flags.{are_allowed, flags_of};
ghost use Rattle.search_obj.specs.Scope.{is_among};
ghost use Rattle.command_text.specs.declared.reply.CommandRefusal.TheVariants.{Criteria as NoCriteria, Flags};
ghost use Rattle.mail_tree.specs.Changing.{found};
ghost use Rattle.mail_tree.specs.Tree.{Tree};
ghost use Rattle.mail_draft.specs.Answers.{IsCalm, Says};
ghost use Rattle.mail_searches.specs.Criteria.{given_restriction, given_scope, if_readable, repeats};
ghost use Rattle.mail_searches.specs.Searches.{is_plain_at};
ghost use Rattle.search_folders.specs.Givens.{given_all, given_of};

use command_text::{CommandRefusal, Scope};
use mail_draft::Stop;
use mail_tree::{Places, Sort};
use pst_base::{Bytes, MemOr, Nid};
use restr_codec::{Restriction, read};
use search_obj::{Criteria, SearchFlags};
use std::alloc::Global;

/// More folders than a scope can have.
const SCOPE_END: usize = 1 << 30;
/// More bytes than a restriction can have.
const RESTRICTION_END: usize = 1 << 32;

/// The flags with this number. Refused where a search may not have them.
fn given_flags(number: u32) -> Result<SearchFlags, Stop>
    ensures answer { Says (λ flags. flags) (found Flags (flags_of number)) result }
    ensures allowed { IfOk result (λ flags. IsTrue (are_allowed flags)) }
    ensures calm { IfErr result IsCalm }
{
    match SearchFlags::from_number(number) {
        Some(flags) => Ok(flags),
        None => Err(Stop::Refused(CommandRefusal::Flags)),
    }
}

/// The restriction that bytes spell. Refused where they spell none.
fn read_restriction(alloc: Global, bytes: &[u8]) -> Result<Restriction, Stop>
    ensures answer { Says (λ r. Some r) (if_readable (reading bytes.now)) result }
    ensures spelled { IfOk result (λ r. IsTrue (has_spelling r)) }
    ensures fits { IfOk result (λ r. length (spelling r) < 2 ^ 32) }
    ensures calm { IfErr result IsCalm }
{
    // No line is as long.
    if bytes.len() >= RESTRICTION_END {
        return Err(Stop::Memory);
    }
    match read(alloc, bytes) {
        Ok(restriction) => Ok(restriction),
        Err(MemOr::Memory) => Err(Stop::Memory),
        Err(MemOr::Refused(bad)) => {
            Err(Stop::Refused(CommandRefusal::Restriction { at: bad.at }))
        }
    }
}

/// The restriction that a line spells, if it gives one. Refused where its bytes spell none.
fn given_restriction(alloc: Global, bytes: &Option<Bytes>) -> Result<Option<Restriction>, Stop>
    ensures answer { Says (λ r. r) (given_restriction bytes.now) result }
    ensures spelled { IfOk result (λ r. ForSome r (λ given. IsTrue (has_spelling given))) }
    ensures fits { IfOk result (λ r. ForSome r (λ given. length (spelling given) < 2 ^ 32)) }
    ensures calm { IfErr result IsCalm }
{
    match bytes {
        Some(bytes) => {
            let restriction = read_restriction(alloc, bytes.as_slice())?;
            Ok(Some(restriction))
        }
        None => Ok(None),
    }
}

/// Whether there is a plain folder with this id.
fn is_plain_at(places: &Places, folder: Nid) -> bool
    ensures { result ≡ is_plain_at places.now folder.bits }
{
    match places.find(folder) {
        Some(place) => match place.sort {
            Sort::Plain => true,
            Sort::Foreign => false,
        },
        None => false,
    }
}

/// Whether each of these folders is a plain one.
fn are_plain(places: &Places, folders: &[Nid]) -> bool
    ensures { result ≡ list_all (is_plain_at places.now) (map (λ n. n.bits) folders.now) }
{
    for folder in folders {
        if !is_plain_at(places, *folder) {
            return false;
        }
    }
    true
}

/// Whether a folder is one of these.
fn is_among(folders: &[Nid], folder: Nid) -> bool
    ensures { result ≡ is_among (map (λ n. n.bits) folders.now) folder.bits }
{
    for other in folders {
        if other.bits == folder.bits {
            return true;
        }
    }
    false
}

/// Whether a folder stands there twice.
fn repeats(folders: &[Nid]) -> bool
    ensures { result ≡ repeats (map (λ n. n.bits) folders.now) }
{
    for at in 0..folders.len() {
        if is_among(&folders[at + 1..], folders[at]) {
            return true;
        }
    }
    false
}

/// The folders that a line gives, if it gives any. Refused where one isn't a plain folder, or stands there twice.
fn given_scope(
    alloc: Global,
    places: &Places,
    scope: &Option<Scope>,
) -> Result<Option<Vec<Nid>>, Stop>
    ensures answer { (T : Tree) → T.places ≡ places.now → Says (option_map (λ ids. map (λ n. n.bits) ids.items)) (given_scope T scope.now) result }
    ensures fits { IfOk result (λ s. ForSome s (λ ids. 4 * length ids.items < 2 ^ 32)) }
    ensures calm { IfErr result IsCalm }
{
    match scope {
        Some(scope) => {
            let folders = plain_folders(alloc, places, scope.as_slice())?;
            Ok(Some(folders))
        }
        None => Ok(None),
    }
}

/// These folders. Refused where one isn't a plain folder, or stands there twice.
fn plain_folders(alloc: Global, places: &Places, folders: &[Nid]) -> Result<Vec<Nid>, Stop>
    ensures answer { (T : Tree) → T.places ≡ places.now → Says (λ ids. Some (map (λ n. n.bits) ids.items)) (given_scope T (Some (map (λ n. n.bits) folders.now))) result }
    ensures fits { IfOk result (λ ids. 4 * length ids.items < 2 ^ 32) }
    ensures calm { IfErr result IsCalm }
{
    // No line is as long.
    if folders.len() >= SCOPE_END {
        return Err(Stop::Memory);
    }
    // First what takes little: then there are no more ids to compare than the store has folders.
    if !are_plain(places, folders) || repeats(folders) {
        return Err(Stop::Refused(CommandRefusal::Scope));
    }
    Ok(Vec::from_slice(alloc, folders)?)
}

/// What a line of criteria gives: flags, and a restriction and folders, if it gives any. Contracts see `given_of` it.
#[derive(Drop)]
pub(crate) struct Given {
    pub(crate) flags: SearchFlags,
    pub(crate) restriction: Option<Restriction>,
    pub(crate) scope: Option<Vec<Nid>>,
}

/// What a line of criteria gives. Refused where a search may not have the flags, the bytes spell no restriction, or a folder isn't a plain one or stands there twice.
pub(crate) fn given_all(
    alloc: Global,
    places: &Places,
    flags: u32,
    scope: &Option<Scope>,
    restriction: &Option<Bytes>,
) -> Result<Given, Stop>
    ensures answer { (T : Tree) → T.places ≡ places.now → Says given_of (given_all T flags scope.now restriction.now) result }
    ensures allowed { IfOk result (λ g. IsTrue (are_allowed g.flags)) }
    ensures scope_fits { IfOk result (λ g. ForSome g.scope (λ ids. 4 * length ids.items < 2 ^ 32)) }
    ensures spelled { IfOk result (λ g. ForSome g.restriction (λ r. IsTrue (has_spelling r))) }
    ensures restriction_fits { IfOk result (λ g. ForSome g.restriction (λ r. length (spelling r) < 2 ^ 32)) }
    ensures calm { IfErr result IsCalm }
{
    let flags = given_flags(flags)?;
    let restriction = given_restriction(alloc, restriction)?;
    let scope = given_scope(alloc, places, scope)?;
    Ok(Given {
        flags,
        restriction,
        scope,
    })
}

/// Criteria that were changed, or the stop where they weren't. Refused where a scope or a restriction is to be kept of a search that has none.
fn changed_or_stop(
    changed: Result<Criteria, MemOr<search_obj::NoCriteria>>,
) -> Result<Criteria, Stop>
    ensures answer { (after : Option Crit) → Finds (λ c. c) changed after → Says (λ c. c) (found NoCriteria after) result }
    ensures calm { IfErr result IsCalm }
{
    match changed {
        Ok(criteria) => Ok(criteria),
        Err(MemOr::Memory) => Err(Stop::Memory),
        Err(MemOr::Refused(_)) => Err(Stop::Refused(CommandRefusal::Criteria)),
    }
}

/// The criteria that come in place of these after a line. Refused where a scope or a restriction is to be kept of a search that has none.
pub(crate) fn changed(alloc: Global, old: Criteria, given: Given) -> Result<Criteria, Stop>
    requires allowed { IsTrue (are_allowed given.flags) }
    requires scope_fits { ForSome given.scope (λ ids. 4 * length ids.items < 2 ^ 32) }
    requires spelled { ForSome given.restriction (λ r. IsTrue (has_spelling r)) }
    requires restriction_fits { ForSome given.restriction (λ r. length (spelling r) < 2 ^ 32) }
    ensures answer { Says (λ c. c) (found NoCriteria (changed old given.flags (option_map (λ ids. map (λ n. n.bits) ids.items) given.scope) given.restriction)) result }
    ensures calm { IfErr result IsCalm }
{
    changed_or_stop(old.changed(alloc, given.flags, given.scope, given.restriction))
}
