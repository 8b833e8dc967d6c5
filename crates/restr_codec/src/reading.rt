//! Reading a restriction.
ghost use Rattle.std.specs.Prelude.{◌≡◌, IfOk, Ok, true};
ghost use Rattle.pst_base.specs.Stops.{Gives};
ghost use Rattle.restr_codec.specs.Forms.{restrs};
ghost use Rattle.restr_codec.specs.Restr.{Restr};
ghost use Rattle.restr_codec.specs.Spelling.{has_spelling, spelling};
ghost use Rattle.restr_codec.specs.Reading.{Reads, by_code, code, code_in, comment_read, commented, group_read, grouped, leaf_by_code, not_read, part, reading, several, started, sub_object_read, whole};

use crate::fields::{Read, read_table, read_truth, read_u8, read_u16, refuse};
use crate::leaves::{
    read_bit_mask, read_compare, read_content, read_exist, read_property, read_size,
};
use crate::restriction::{Form, Restriction};
use crate::values::read_tagged_values;
use mapi_values::Value;
use pst_base::MemOr;
use std::alloc::Global;

/// How many restrictions a restriction has at most, itself too.
const MOST_RESTRICTIONS: u16 = 256;
/// How many restrictions stand within one another at most.
const MOST_DEEP: u8 = 16;

/// Bytes that spell no restriction.
#[derive(Clone, Copy, Debug, PartialEq, Eq)]
pub struct BadRestriction {
    /// The offset of the first byte of the first field that is cut short or holds what it may not.
    pub at: u64,
}

/// What restrictions there may still be: how many in all, how many within one another, and whether they stand within a SubObject.
#[derive(Clone, Copy, Debug, PartialEq, Eq)]
struct Room {
    left: u16,
    deep: u8,
    inner: bool,
}

#[tactic(auto, unfolding(crate::specs::Reading::code_in))]
fn code_in(inner: bool, code: u8) -> Option<u8>
    ensures { result ≡ code_in inner code }
{
    if code <= 10 && !(inner && code == 9) {
        Some(code)
    } else {
        None
    }
}

/// The first byte of a restriction.
fn read_code(room: Room, bytes: &[u8]) -> Read<'_, u8>
    ensures { Reads (λ c. c) result (started room.inner room.left bytes.now) }
{
    if room.left == 0 {
        return Err(refuse(bytes));
    }
    let (code, behind) = read_u8(bytes)?;
    match code_in(room.inner, code) {
        Some(code) => Ok((code, behind)),
        None => Err(refuse(bytes)),
    }
}

/// So many restrictions.
#[cycle(read)]
fn read_several(
    alloc: Global,
    count: u16,
    room: Room,
    bytes: &[u8],
) -> Read<'_, (Vec<Restriction>, u16)>
    ensures { Reads (λ p. (restrs p.0.items, p.1)) result (several (part room.deep room.inner) count room.left bytes.now) }
{
    let mut inner = Vec::new(alloc);
    let mut left = room.left;
    let mut rest = bytes;
    for _turn in 0..count {
        let ((one, still), behind) = read_restriction(alloc, Room { left, ..room }, rest)?;
        inner.push(one)?;
        left = still;
        rest = behind;
    }
    Ok(((inner, left), rest))
}

/// And, or Or: a number and as many restrictions.
#[cycle(read)]
#[tactic(auto, using(crate::proofs::ReadLaws::stops, crate::proofs::ReadLaws::goes))]
fn read_group(alloc: Global, or: bool, room: Room, bytes: &[u8]) -> Read<'_, (Restriction, u16)>
    ensures { Reads (λ p. p) result (group_read (grouped or) (part room.deep room.inner) room.left bytes.now) }
{
    let (count, bytes) = read_u16(bytes)?;
    let ((inner, left), bytes) = read_several(alloc, count, room, bytes)?;
    let form = if or {
        Form::Or(inner)
    } else {
        Form::And(inner)
    };
    Ok(((Restriction { form }, left), bytes))
}

/// Not: a restriction.
#[cycle(read)]
#[tactic(auto, using(crate::proofs::ReadLaws::stops, crate::proofs::ReadLaws::goes))]
fn read_not(alloc: Global, room: Room, bytes: &[u8]) -> Read<'_, (Restriction, u16)>
    ensures { Reads (λ p. p) result (not_read (part room.deep room.inner) room.left bytes.now) }
{
    let ((inner, left), bytes) = read_restriction(alloc, room, bytes)?;
    let form = Form::Not(Box::new(alloc, inner)?);
    Ok(((Restriction { form }, left), bytes))
}

/// SubObject: the tag of a table, and a restriction.
#[cycle(read)]
#[tactic(auto, using(crate::proofs::ReadLaws::stops, crate::proofs::ReadLaws::goes))]
fn read_sub_object(alloc: Global, room: Room, bytes: &[u8]) -> Read<'_, (Restriction, u16)>
    ensures { Reads (λ p. p) result (sub_object_read (part room.deep true) room.left bytes.now) }
{
    let (table, bytes) = read_table(bytes)?;
    let inside = Room {
        inner: true,
        ..room
    };
    let ((inner, left), bytes) = read_restriction(alloc, inside, bytes)?;
    let form = Form::SubObject {
        table,
        inner: Box::new(alloc, inner)?,
    };
    Ok(((Restriction { form }, left), bytes))
}

/// The restriction of a comment with these values, where it is present.
#[cycle(read)]
#[tactic(auto, using(crate::proofs::ReadLaws::stops, crate::proofs::ReadLaws::goes))]
fn read_commented(
    alloc: Global,
    values: Vec<Value>,
    present: bool,
    room: Room,
    bytes: &[u8],
) -> Read<'_, (Restriction, u16)>
    ensures { Reads (λ p. p) result (commented (part room.deep room.inner) values.items present room.left bytes.now) }
{
    if !present {
        let form = Form::Comment {
            values,
            inner: None,
        };
        return Ok(((Restriction { form }, room.left), bytes));
    }
    let ((inner, left), bytes) = read_restriction(alloc, room, bytes)?;
    let form = Form::Comment {
        values,
        inner: Some(Box::new(alloc, inner)?),
    };
    Ok(((Restriction { form }, left), bytes))
}

/// Comment: a number and as many values, and a restriction where it is present.
#[cycle(read)]
#[tactic(auto, using(crate::proofs::ReadLaws::stops, crate::proofs::ReadLaws::goes))]
fn read_comment(alloc: Global, room: Room, bytes: &[u8]) -> Read<'_, (Restriction, u16)>
    ensures { Reads (λ p. p) result (comment_read (part room.deep room.inner) room.left bytes.now) }
{
    let (count, bytes) = read_u8(bytes)?;
    let (values, bytes) = read_tagged_values(alloc, count, bytes)?;
    let (present, bytes) = read_truth(bytes)?;
    read_commented(alloc, values, present, room, bytes)
}

/// A restriction with no other within it, behind its first byte.
fn read_leaf(alloc: Global, code: u8, bytes: &[u8]) -> Read<'_, Restriction>
    ensures { Reads (λ r. r) result (leaf_by_code code bytes.now) }
{
    match code {
        3 => read_content(alloc, bytes),
        4 => read_property(alloc, bytes),
        5 => read_compare(bytes),
        6 => read_bit_mask(bytes),
        7 => read_size(bytes),
        _ => read_exist(bytes),
    }
}

/// What follows the first byte.
#[cycle(read)]
#[tactic(auto, using(crate::proofs::ReadLaws::stops, crate::proofs::ReadLaws::goes))]
fn read_by_code(alloc: Global, code: u8, room: Room, bytes: &[u8]) -> Read<'_, (Restriction, u16)>
    ensures { Reads (λ p. p) result (by_code (part room.deep) room.inner code room.left bytes.now) }
{
    match code {
        0 => read_group(alloc, false, room, bytes),
        1 => read_group(alloc, true, room, bytes),
        2 => read_not(alloc, room, bytes),
        9 => read_sub_object(alloc, room, bytes),
        10 => read_comment(alloc, room, bytes),
        _ => {
            let (leaf, bytes) = read_leaf(alloc, code, bytes)?;
            Ok(((leaf, room.left), bytes))
        }
    }
}

/// A restriction, and how many may still come after it.
#[cycle(read)]
#[tactic(auto, using(crate::proofs::ReadLaws::stops, crate::proofs::ReadLaws::goes))]
fn read_restriction(alloc: Global, room: Room, bytes: &[u8]) -> Read<'_, (Restriction, u16)>
    ensures { Reads (λ p. p) result (part room.deep room.inner room.left bytes.now) }
{
    if room.deep == 0 {
        return Err(refuse(bytes));
    }
    let (code, bytes) = read_code(room, bytes)?;
    let within = Room {
        left: room.left - 1,
        deep: room.deep - 1,
        ..room
    };
    read_by_code(alloc, code, within, bytes)
}

/// A restriction with nothing behind it.
#[tactic(auto, using(crate::proofs::ReadLaws::stops, crate::proofs::ReadLaws::goes))]
fn read_whole(alloc: Global, bytes: &[u8]) -> Read<'_, Restriction>
    ensures { Reads (λ r. r) result (whole bytes.now) }
{
    let room = Room {
        left: MOST_RESTRICTIONS,
        deep: MOST_DEEP,
        inner: false,
    };
    let ((restriction, _), behind) = read_restriction(alloc, room, bytes)?;
    match behind {
        [] => Ok((restriction, behind)),
        _ => Err(refuse(behind)),
    }
}

/// The restriction that the bytes spell ([MS-OXCDATA] 2.12), or the offset of the first fault: a field that is cut short or holds what it may not, a restriction past the 256th or more than 16 deep, or what stands behind the restriction.
#[tactic(auto, unfolding(crate::specs::Reading::reading))]
pub fn read(alloc: Global, bytes: &[u8]) -> Result<Restriction, MemOr<BadRestriction>>
    ensures read { Gives (λ r. r) result (reading bytes.now) }
    ensures spelled { IfOk result (λ r. (bytes.now ≡ spelling r) × (has_spelling r ≡ true)) }
{
    match read_whole(alloc, bytes) {
        Ok((restriction, _)) => Ok(restriction),
        Err(MemOr::Memory) => Err(MemOr::Memory),
        Err(MemOr::Refused(fault)) => Err(MemOr::Refused(BadRestriction {
            at: (bytes.len() - fault.remaining) as u64,
        })),
    }
}

/// What is written of a restriction reads as that restriction.
pub fn written_reads_back()
    ensures { (r : Restr) → has_spelling r ≡ true → reading (spelling r) ≡ Ok r }
{}
