//! The fields of a restriction, each read off the front of bytes.
ghost use Rattle.std.specs.Prelude.{◌≡◌, length};
ghost use Rattle.pst_base.specs.declared.stops.MemOr.TheVariants.{Refused};
ghost use Rattle.restr_codec.specs.Reading.{Reads, allows, code, flags_of, level_of, number, numbered, relation_of, table_of, tag, tag_in, test_of, truth_of};
ghost use Rattle.restr_codec.specs.Spelling.{tag_number};

use crate::restriction::{BitTest, FuzzyFlags, FuzzyLevel, Relation, SubTable};
use crate::values::{is_content_kind, is_value_kind};
use mapi_values::Tag;
use mapi_values::tags::{PID_TAG_MESSAGE_ATTACHMENTS, PID_TAG_MESSAGE_RECIPIENTS};
use pst_base::{MemOr, u8_at, u16_at, u32_at};

/// A field that is cut short or holds what it may not: how many bytes there are from its first one on.
#[derive(Clone, Copy, Debug, PartialEq, Eq)]
pub struct Fault {
    pub remaining: usize,
}

/// What was read, and the bytes behind it.
pub type Read<'a, T> = Result<(T, &'a [u8]), MemOr<Fault>>;

/// The tags that may stand in a field.
#[derive(Clone, Copy, Debug, PartialEq, Eq)]
pub enum Tags {
    /// Any tag.
    Any,
    /// Those of the kinds of values that restrictions have.
    OfValues,
    /// Those of text and of bytes.
    OfContent,
    /// Those of this kind.
    OfKind(u16),
    /// This one.
    Just(Tag),
}

impl Tags {
    /// Whether a tag is among these.
    fn allows(self, tag: Tag) -> bool
        ensures { result ≡ allows self tag }
    {
        match self {
            Tags::Any => true,
            Tags::OfValues => is_value_kind(tag.kind),
            Tags::OfContent => is_content_kind(tag.kind),
            Tags::OfKind(kind) => tag.kind == kind,
            Tags::Just(just) => tag.id == just.id && tag.kind == just.kind,
        }
    }
}

/// What a field that begins these bytes gives where it may not stand there.
pub fn refuse(bytes: &[u8]) -> MemOr<Fault>
    ensures { result ≡ Refused (record { remaining = length bytes.now }) }
{
    MemOr::Refused(Fault {
        remaining: bytes.len(),
    })
}

/// A number of 1 byte.
#[tactic(auto, unfolding(crate::specs::Reading::number))]
pub fn read_u8(bytes: &[u8]) -> Read<'_, u8>
    ensures { Reads (λ x. x) result (number 1 bytes.now) }
{
    match bytes.split_at_checked(1) {
        Some((_, behind)) => Ok((u8_at(bytes, 0), behind)),
        None => Err(refuse(bytes)),
    }
}

/// A number of 2 bytes.
#[tactic(auto, unfolding(crate::specs::Reading::number))]
pub fn read_u16(bytes: &[u8]) -> Read<'_, u16>
    ensures { Reads (λ x. x) result (number 2 bytes.now) }
{
    match bytes.split_at_checked(2) {
        Some((_, behind)) => Ok((u16_at(bytes, 0), behind)),
        None => Err(refuse(bytes)),
    }
}

/// A number of 4 bytes.
#[tactic(auto, unfolding(crate::specs::Reading::number))]
pub fn read_u32(bytes: &[u8]) -> Read<'_, u32>
    ensures { Reads (λ x. x) result (number 4 bytes.now) }
{
    match bytes.split_at_checked(4) {
        Some((_, behind)) => Ok((u32_at(bytes, 0), behind)),
        None => Err(refuse(bytes)),
    }
}

#[tactic(auto, unfolding(crate::specs::Reading::relation_of))]
fn relation_of(code: u8) -> Option<Relation>
    ensures { result ≡ relation_of code }
{
    match code {
        0 => Some(Relation::Less),
        1 => Some(Relation::AtMost),
        2 => Some(Relation::Greater),
        3 => Some(Relation::AtLeast),
        4 => Some(Relation::Equal),
        5 => Some(Relation::NotEqual),
        _ => None,
    }
}

/// How two values are to stand to each other.
pub fn read_relation(bytes: &[u8]) -> Read<'_, Relation>
    ensures { Reads (λ x. x) result (code 1 relation_of bytes.now) }
{
    let (code, behind) = read_u8(bytes)?;
    match relation_of(code) {
        Some(relation) => Ok((relation, behind)),
        None => Err(refuse(bytes)),
    }
}

#[tactic(auto, unfolding(crate::specs::Reading::level_of))]
fn level_of(code: u16) -> Option<FuzzyLevel>
    ensures { result ≡ level_of code }
{
    match code {
        0 => Some(FuzzyLevel::FullString),
        1 => Some(FuzzyLevel::Substring),
        2 => Some(FuzzyLevel::Prefix),
        _ => None,
    }
}

/// Where a value is to stand in another.
pub fn read_level(bytes: &[u8]) -> Read<'_, FuzzyLevel>
    ensures { Reads (λ x. x) result (code 2 level_of bytes.now) }
{
    let (code, behind) = read_u16(bytes)?;
    match level_of(code) {
        Some(level) => Ok((level, behind)),
        None => Err(refuse(bytes)),
    }
}

#[tactic(auto, unfolding(crate::specs::Reading::test_of))]
fn test_of(code: u8) -> Option<BitTest>
    ensures { result ≡ test_of code }
{
    match code {
        0 => Some(BitTest::Zero),
        1 => Some(BitTest::NotZero),
        _ => None,
    }
}

/// What is asked of bits.
pub fn read_test(bytes: &[u8]) -> Read<'_, BitTest>
    ensures { Reads (λ x. x) result (code 1 test_of bytes.now) }
{
    let (code, behind) = read_u8(bytes)?;
    match test_of(code) {
        Some(test) => Ok((test, behind)),
        None => Err(refuse(bytes)),
    }
}

#[tactic(auto, unfolding(crate::specs::Reading::truth_of))]
fn truth_of(code: u8) -> Option<bool>
    ensures { result ≡ truth_of code }
{
    match code {
        0 => Some(false),
        1 => Some(true),
        _ => None,
    }
}

/// A truth value.
pub fn read_truth(bytes: &[u8]) -> Read<'_, bool>
    ensures { Reads (λ x. x) result (code 1 truth_of bytes.now) }
{
    let (code, behind) = read_u8(bytes)?;
    match truth_of(code) {
        Some(truth) => Ok((truth, behind)),
        None => Err(refuse(bytes)),
    }
}

#[tactic(auto, unfolding(crate::specs::Reading::flags_of))]
fn flags_of(code: u16) -> Option<FuzzyFlags>
    ensures { result ≡ flags_of code }
{
    if code < 8 {
        Some(FuzzyFlags {
            ignore_case: code % 2 == 1,
            ignore_nonspace: code / 2 % 2 == 1,
            loose: code / 4 == 1,
        })
    } else {
        None
    }
}

/// Which differences between texts don't count.
pub fn read_flags(bytes: &[u8]) -> Read<'_, FuzzyFlags>
    ensures { Reads (λ x. x) result (code 2 flags_of bytes.now) }
{
    let (code, behind) = read_u16(bytes)?;
    match flags_of(code) {
        Some(flags) => Ok((flags, behind)),
        None => Err(refuse(bytes)),
    }
}

/// A tag as one number, the kind in its low half.
pub fn tag_number(tag: Tag) -> u32
    ensures { result ≡ tag_number tag }
{
    0x1_0000 * u32::from(tag.id) + u32::from(tag.kind)
}

fn numbered(number: u32) -> Tag
    ensures { result ≡ numbered number }
{
    Tag {
        id: (number / 0x1_0000) as u16,
        kind: (number % 0x1_0000) as u16,
    }
}

#[tactic(auto, unfolding(crate::specs::Reading::table_of))]
fn table_of(number: u32) -> Option<SubTable>
    ensures { result ≡ table_of number }
{
    if number == tag_number(PID_TAG_MESSAGE_RECIPIENTS) {
        Some(SubTable::Recipients)
    } else if number == tag_number(PID_TAG_MESSAGE_ATTACHMENTS) {
        Some(SubTable::Attachments)
    } else {
        None
    }
}

/// The tag of the table that holds objects.
pub fn read_table(bytes: &[u8]) -> Read<'_, SubTable>
    ensures { Reads (λ x. x) result (code 4 table_of bytes.now) }
{
    let (number, behind) = read_u32(bytes)?;
    match table_of(number) {
        Some(table) => Ok((table, behind)),
        None => Err(refuse(bytes)),
    }
}

/// A tag, the kind before the id.
#[tactic(auto, unfolding(crate::specs::Reading::tag_in))]
pub fn read_tag(bytes: &[u8], tags: Tags) -> Read<'_, Tag>
    ensures { Reads (λ x. x) result (tag tags bytes.now) }
{
    let (number, behind) = read_u32(bytes)?;
    let tag = numbered(number);
    if tags.allows(tag) {
        Ok((tag, behind))
    } else {
        Err(refuse(bytes))
    }
}
