//! Writing a restriction.
ghost use Rattle.std.specs.Prelude.{◌≡◌, ◌≤◌, ◌++◌, ◌∷◌, IfOk, OnOk, length, true, false};
ghost use Rattle.std.specs.List.{flat_map};
ghost use Rattle.restr_codec.specs.Forms.{restrs};
ghost use Rattle.restr_codec.specs.Restr.{bit_mask, compare, content, count, count_all, property, size_of};
ghost use Rattle.restr_codec.specs.Spelling.{are_allowed, are_tagged_values, flags_code, has_spelling, is_allowed, is_tagged_value, group_bytes, kind_bytes, level_code, most_restrictions, relation_code, spelling, spelling_of_all, table_tag, tag_bytes, tagged_bytes, test_code};

use crate::fields::tag_number;
use crate::restriction::{BitTest, Form, FuzzyFlags, FuzzyLevel, Relation, Restriction, SubTable};
use mapi_values::tags::{
    PID_TAG_MESSAGE_ATTACHMENTS, PID_TAG_MESSAGE_RECIPIENTS, PTYP_BINARY, PTYP_STRING,
};
use mapi_values::{Tag, Value};
use pst_base::Bytes;
use std::alloc::{AllocError, Global};

fn relation_code(relation: Relation) -> u8
    ensures { result ≡ relation_code relation }
{
    match relation {
        Relation::Less => 0,
        Relation::AtMost => 1,
        Relation::Greater => 2,
        Relation::AtLeast => 3,
        Relation::Equal => 4,
        Relation::NotEqual => 5,
    }
}

fn level_code(level: FuzzyLevel) -> u16
    ensures { result ≡ level_code level }
{
    match level {
        FuzzyLevel::FullString => 0,
        FuzzyLevel::Substring => 1,
        FuzzyLevel::Prefix => 2,
    }
}

fn flags_code(flags: FuzzyFlags) -> u16
    ensures { result ≡ flags_code flags }
{
    u16::from(flags.ignore_case) + 2 * u16::from(flags.ignore_nonspace) + 4 * u16::from(flags.loose)
}

fn test_code(test: BitTest) -> u8
    ensures { result ≡ test_code test }
{
    match test {
        BitTest::Zero => 0,
        BitTest::NotZero => 1,
    }
}

fn table_tag(table: SubTable) -> Tag
    ensures { result ≡ table_tag table }
{
    match table {
        SubTable::Recipients => PID_TAG_MESSAGE_RECIPIENTS,
        SubTable::Attachments => PID_TAG_MESSAGE_ATTACHMENTS,
    }
}

/// Writes a tag, its kind first. An `Err` leaves bytes that are to be given up, here and below.
#[tactic(auto, unfolding(crate::specs::Spelling::tag_bytes))]
fn push_tag(out: &mut Vec<u8>, tag: Tag) -> Result<(), AllocError>
    ensures { OnOk result (out.new.items ≡ out.old.items ++ tag_bytes tag) }
{
    out.extend_from_slice(&tag_number(tag).to_le_bytes())
}

/// Writes a value without its tag.
#[tactic(auto, using(crate::proofs::WriteLaws::few_bytes), unfolding(crate::specs::Spelling::kind_bytes))]
fn push_value(out: &mut Vec<u8>, value: &Value) -> Result<(), AllocError>
    requires { is_tagged_value value.now ≡ true }
    ensures { OnOk result (out.new.items ≡ out.old.items ++ kind_bytes value.now.kind value.now.bytes) }
{
    match value.kind() {
        PTYP_STRING => {
            out.extend_from_slice(value.bytes())?;
            out.extend_from_slice(&[0, 0])
        }
        PTYP_BINARY => {
            out.extend_from_slice(&(value.len() as u16).to_le_bytes())?;
            out.extend_from_slice(value.bytes())
        }
        _ => out.extend_from_slice(value.bytes()),
    }
}

/// Writes a tag and a value.
fn push_tagged(out: &mut Vec<u8>, value: &Value) -> Result<(), AllocError>
    requires { is_tagged_value value.now ≡ true }
    ensures { OnOk result (out.new.items ≡ out.old.items ++ tagged_bytes value.now) }
{
    push_tag(out, value.tag())?;
    push_value(out, value)
}

/// Writes a number of values, and each with its tag.
fn push_tagged_values(out: &mut Vec<u8>, values: &[Value]) -> Result<(), AllocError>
    requires { are_tagged_values values.now ≡ true }
    ensures { OnOk result (out.new.items ≡ out.old.items ++ length values.now ∷ flat_map tagged_bytes values.now) }
{
    out.push(values.len() as u8)?;
    for value in values {
        push_tagged(out, value)?;
    }
    Ok(())
}

/// Writes a Content.
fn push_content(
    out: &mut Vec<u8>,
    level: FuzzyLevel,
    flags: FuzzyFlags,
    value: &Value,
) -> Result<(), AllocError>
    requires { is_tagged_value value.now ≡ true }
    ensures { OnOk result (out.new.items ≡ out.old.items ++ spelling (content level flags value.now)) }
{
    out.push(3)?;
    out.extend_from_slice(&level_code(level).to_le_bytes())?;
    out.extend_from_slice(&flags_code(flags).to_le_bytes())?;
    push_tag(out, value.tag())?;
    push_tagged(out, value)
}

/// Writes a Property.
fn push_property(out: &mut Vec<u8>, relation: Relation, value: &Value) -> Result<(), AllocError>
    requires { is_tagged_value value.now ≡ true }
    ensures { OnOk result (out.new.items ≡ out.old.items ++ spelling (property relation value.now)) }
{
    out.extend_from_slice(&[4, relation_code(relation)])?;
    push_tag(out, value.tag())?;
    push_tagged(out, value)
}

/// Writes a CompareProps.
fn push_compare(
    out: &mut Vec<u8>,
    relation: Relation,
    left: Tag,
    right: Tag,
) -> Result<(), AllocError>
    ensures { OnOk result (out.new.items ≡ out.old.items ++ spelling (compare relation left right)) }
{
    out.extend_from_slice(&[5, relation_code(relation)])?;
    push_tag(out, left)?;
    push_tag(out, right)
}

/// Writes a BitMask.
fn push_bit_mask(out: &mut Vec<u8>, test: BitTest, tag: Tag, mask: u32) -> Result<(), AllocError>
    ensures { OnOk result (out.new.items ≡ out.old.items ++ spelling (bit_mask test tag mask)) }
{
    out.extend_from_slice(&[6, test_code(test)])?;
    push_tag(out, tag)?;
    out.extend_from_slice(&mask.to_le_bytes())
}

/// Writes a Size.
fn push_size(out: &mut Vec<u8>, relation: Relation, tag: Tag, size: u32) -> Result<(), AllocError>
    ensures { OnOk result (out.new.items ≡ out.old.items ++ spelling (size_of relation tag size)) }
{
    out.extend_from_slice(&[7, relation_code(relation)])?;
    push_tag(out, tag)?;
    out.extend_from_slice(&size.to_le_bytes())
}

/// Writes some restrictions.
#[cycle(write)]
#[tactic(auto, using(crate::proofs::Counts::count_at, crate::proofs::WriteLaws::allowed_at))]
fn push_all(out: &mut Vec<u8>, inner: &Vec<Restriction>) -> Result<(), AllocError>
    requires allowed { are_allowed false (restrs inner.now.items) ≡ true }
    requires few { count_all (restrs inner.now.items) ≤ most_restrictions }
    ensures { OnOk result (out.new.items ≡ out.old.items ++ spelling_of_all (restrs inner.now.items)) }
{
    for one in inner {
        push_restriction(out, one)?;
    }
    Ok(())
}

/// Writes an And or an Or behind its first byte.
#[cycle(write)]
#[tactic(auto, using(crate::proofs::Counts::how_many_restrs, crate::proofs::Counts::length_count))]
fn push_group(out: &mut Vec<u8>, inner: &Vec<Restriction>) -> Result<(), AllocError>
    requires allowed { are_allowed false (restrs inner.now.items) ≡ true }
    requires few { count_all (restrs inner.now.items) ≤ most_restrictions }
    ensures { OnOk result (out.new.items ≡ out.old.items ++ group_bytes (restrs inner.now.items)) }
{
    out.extend_from_slice(&(inner.len() as u16).to_le_bytes())?;
    push_all(out, inner)
}

/// Writes a restriction.
#[cycle(write)]
#[tactic(auto, using(crate::proofs::WriteLaws::allowed_outside, crate::proofs::WriteLaws::and_left, crate::proofs::WriteLaws::and_right))]
fn push_restriction(out: &mut Vec<u8>, restriction: &Restriction) -> Result<(), AllocError>
    requires allowed { is_allowed false restriction.now ≡ true }
    requires few { count restriction.now ≤ most_restrictions }
    ensures { OnOk result (out.new.items ≡ out.old.items ++ spelling restriction.now) }
{
    match &restriction.form {
        Form::And(inner) => {
            out.push(0)?;
            push_group(out, inner)
        }
        Form::Or(inner) => {
            out.push(1)?;
            push_group(out, inner)
        }
        Form::Not(inner) => {
            out.push(2)?;
            push_restriction(out, inner)
        }
        Form::Content {
            level,
            flags,
            value,
        } => push_content(out, *level, *flags, value),
        Form::Property { relation, value } => push_property(out, *relation, value),
        Form::CompareProps {
            relation,
            left,
            right,
        } => push_compare(out, *relation, *left, *right),
        Form::BitMask { test, tag, mask } => push_bit_mask(out, *test, *tag, *mask),
        Form::Size {
            relation,
            tag,
            size,
        } => push_size(out, *relation, *tag, *size),
        Form::Exist(tag) => {
            out.push(8)?;
            push_tag(out, *tag)
        }
        Form::SubObject { table, inner } => {
            out.push(9)?;
            push_tag(out, table_tag(*table))?;
            push_restriction(out, inner)
        }
        Form::Comment { values, inner } => {
            out.push(10)?;
            push_tagged_values(out, values.as_slice())?;
            match inner {
                Some(inner) => {
                    out.push(1)?;
                    push_restriction(out, inner)
                }
                None => {
                    out.push(0)?;
                    Ok(())
                }
            }
        }
    }
}

/// The bytes of a restriction ([MS-OXCDATA] 2.12), from which `read` gives it again.
#[tactic(auto, unfolding(crate::specs::Spelling::has_spelling))]
pub fn write(alloc: Global, restriction: &Restriction) -> Result<Bytes, AllocError>
    requires { has_spelling restriction.now ≡ true }
    ensures { IfOk result (λ bytes. bytes ≡ spelling restriction.now) }
{
    let mut out = Vec::new(alloc);
    push_restriction(&mut out, restriction)?;
    Ok(Bytes::from_vec(out))
}
