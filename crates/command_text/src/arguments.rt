//! What stands behind the first word of a line, by the shapes that several commands share.
ghost use Rattle.pst_base.specs.Stops.{Gives};
ghost use Rattle.command_text.specs.Arguments.{one_id, two_ids, id_and_tag, id_and_value, id_and_name};

use crate::command::LineRefusal;
use crate::words::{cut, read_id, read_name, read_tag};
use mapi_values::{Tag, Units, Value};
use pst_base::{MemOr, Nid};
use std::alloc::Global;
use value_text::parse_value;

/// An id.
#[tactic(auto, unfolding(crate::specs::Arguments::one_id))]
pub fn one_id(word: &str) -> Result<Nid, MemOr<LineRefusal>>
    ensures { Gives (λ id. id) result (one_id word.now) }
{
    match read_id(word) {
        Some(id) => Ok(id),
        None => Err(MemOr::Refused(LineRefusal::Line)),
    }
}

/// Two ids.
#[tactic(auto, unfolding(crate::specs::Arguments::two_ids))]
pub fn two_ids(rest: &str) -> Result<(Nid, Nid), MemOr<LineRefusal>>
    ensures { Gives (λ ids. ids) result (two_ids rest.now) }
{
    let Some((first, second)) = cut(rest) else {
        return Err(MemOr::Refused(LineRefusal::Line));
    };
    let first = one_id(first)?;
    let second = one_id(second)?;
    Ok((first, second))
}

/// An id and a tag.
#[tactic(auto, unfolding(crate::specs::Arguments::id_and_tag))]
pub fn id_and_tag(rest: &str) -> Result<(Nid, Tag), MemOr<LineRefusal>>
    ensures { Gives (λ given. given) result (id_and_tag rest.now) }
{
    let Some((id, tag)) = cut(rest) else {
        return Err(MemOr::Refused(LineRefusal::Line));
    };
    let id = one_id(id)?;
    match read_tag(tag) {
        Some(tag) => Ok((id, tag)),
        None => Err(MemOr::Refused(LineRefusal::Line)),
    }
}

/// An id, a tag, and the value that the rest of the line says, spaces and all.
#[tactic(auto, unfolding(crate::specs::Arguments::id_and_value))]
pub fn id_and_value(alloc: Global, rest: &str) -> Result<(Nid, Value), MemOr<LineRefusal>>
    ensures { Gives (λ given. given) result (id_and_value rest.now) }
{
    let Some((id, rest)) = cut(rest) else {
        return Err(MemOr::Refused(LineRefusal::Line));
    };
    let id = one_id(id)?;
    let Some((tag, value)) = cut(rest) else {
        return Err(MemOr::Refused(LineRefusal::Line));
    };
    let Some(tag) = read_tag(tag) else {
        return Err(MemOr::Refused(LineRefusal::Line));
    };
    match parse_value(alloc, tag, value) {
        Ok(value) => Ok((id, value)),
        Err(MemOr::Refused(_)) => Err(MemOr::Refused(LineRefusal::Value)),
        Err(MemOr::Memory) => Err(MemOr::Memory),
    }
}

/// An id, and a name that runs to the end of the line.
#[tactic(auto, unfolding(crate::specs::Arguments::id_and_name))]
pub fn id_and_name(alloc: Global, rest: &str) -> Result<(Nid, Units), MemOr<LineRefusal>>
    ensures { Gives (λ given. given) result (id_and_name rest.now) }
{
    let Some((id, name)) = cut(rest) else {
        return Err(MemOr::Refused(LineRefusal::Line));
    };
    let id = one_id(id)?;
    let name = read_name(alloc, name)?;
    Ok((id, name))
}
