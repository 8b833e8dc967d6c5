//! The restrictions within which no other one stands, without their first byte.
ghost use Rattle.restr_codec.specs.Reading.{Reads, bit_mask_read, compare_read, content_read, exist_read, property_read, size_read};

use crate::fields::{
    Read, Tags, read_flags, read_level, read_relation, read_tag, read_test, read_u32,
};
use crate::restriction::{Form, Restriction};
use crate::values::read_tagged;
use mapi_values::tags::PTYP_INTEGER_32;
use std::alloc::Global;

/// Content: fuzzy level, flags, tag and tagged value.
#[tactic(auto, using(crate::proofs::ReadLaws::stops, crate::proofs::ReadLaws::goes))]
pub fn read_content(alloc: Global, bytes: &[u8]) -> Read<'_, Restriction>
    ensures { Reads (λ r. r) result (content_read bytes.now) }
{
    let (level, bytes) = read_level(bytes)?;
    let (flags, bytes) = read_flags(bytes)?;
    let (tag, bytes) = read_tag(bytes, Tags::OfContent)?;
    let (value, bytes) = read_tagged(alloc, Tags::Just(tag), bytes)?;
    let form = Form::Content {
        level,
        flags,
        value,
    };
    Ok((Restriction { form }, bytes))
}

/// Property: relation, tag and tagged value.
#[tactic(auto, using(crate::proofs::ReadLaws::stops, crate::proofs::ReadLaws::goes))]
pub fn read_property(alloc: Global, bytes: &[u8]) -> Read<'_, Restriction>
    ensures { Reads (λ r. r) result (property_read bytes.now) }
{
    let (relation, bytes) = read_relation(bytes)?;
    let (tag, bytes) = read_tag(bytes, Tags::OfValues)?;
    let (value, bytes) = read_tagged(alloc, Tags::Just(tag), bytes)?;
    let form = Form::Property { relation, value };
    Ok((Restriction { form }, bytes))
}

/// CompareProps: relation and two tags of one kind.
#[tactic(auto, using(crate::proofs::ReadLaws::stops, crate::proofs::ReadLaws::goes))]
pub fn read_compare(bytes: &[u8]) -> Read<'_, Restriction>
    ensures { Reads (λ r. r) result (compare_read bytes.now) }
{
    let (relation, bytes) = read_relation(bytes)?;
    let (left, bytes) = read_tag(bytes, Tags::OfValues)?;
    let (right, bytes) = read_tag(bytes, Tags::OfKind(left.kind))?;
    let form = Form::CompareProps {
        relation,
        left,
        right,
    };
    Ok((Restriction { form }, bytes))
}

/// BitMask: test, tag and mask.
#[tactic(auto, using(crate::proofs::ReadLaws::stops, crate::proofs::ReadLaws::goes))]
pub fn read_bit_mask(bytes: &[u8]) -> Read<'_, Restriction>
    ensures { Reads (λ r. r) result (bit_mask_read bytes.now) }
{
    let (test, bytes) = read_test(bytes)?;
    let (tag, bytes) = read_tag(bytes, Tags::OfKind(PTYP_INTEGER_32))?;
    let (mask, bytes) = read_u32(bytes)?;
    let form = Form::BitMask { test, tag, mask };
    Ok((Restriction { form }, bytes))
}

/// Size: relation, tag and size.
#[tactic(auto, using(crate::proofs::ReadLaws::stops, crate::proofs::ReadLaws::goes))]
pub fn read_size(bytes: &[u8]) -> Read<'_, Restriction>
    ensures { Reads (λ r. r) result (size_read bytes.now) }
{
    let (relation, bytes) = read_relation(bytes)?;
    let (tag, bytes) = read_tag(bytes, Tags::Any)?;
    let (size, bytes) = read_u32(bytes)?;
    let form = Form::Size {
        relation,
        tag,
        size,
    };
    Ok((Restriction { form }, bytes))
}

/// Exist: a tag.
#[tactic(auto, using(crate::proofs::ReadLaws::stops, crate::proofs::ReadLaws::goes))]
pub fn read_exist(bytes: &[u8]) -> Read<'_, Restriction>
    ensures { Reads (λ r. r) result (exist_read bytes.now) }
{
    let (tag, bytes) = read_tag(bytes, Tags::Any)?;
    let form = Form::Exist(tag);
    Ok((Restriction { form }, bytes))
}
