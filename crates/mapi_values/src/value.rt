//! The value of one property.
ghost use Rattle.std.specs.Prelude.{◌≡◌, IfOk, IsTrue, length};
ghost use Rattle.mapi_values.specs.Values.{fits, in_field};

use crate::keyed::Keyed;
use crate::tags::{
    PTYP_BOOLEAN, PTYP_ERROR_CODE, PTYP_FLOATING_32, PTYP_INTEGER_16, PTYP_INTEGER_32, PTYP_NULL,
    PTYP_UNSPECIFIED,
};
use pst_base::Bytes;
use std::alloc::{AllocError, Global};
use std::marker::Model;

/// The id of a property and the kind of its value.
#[derive(Clone, Copy, Debug, PartialEq, Eq, PartialOrd, Ord, Hash)]
pub struct Tag {
    pub id: u16,
    pub kind: u16,
}

/// The width of the values of a kind that stand in the field of a property context themselves ([MS-PST] 2.3.3.3), if they do.
#[tactic(auto, unfolding(crate::specs::Values::in_field))]
pub fn field_width(kind: u16) -> Option<usize>
    ensures { result ≡ in_field kind }
{
    match kind {
        PTYP_UNSPECIFIED | PTYP_NULL | PTYP_INTEGER_32 | PTYP_FLOATING_32 | PTYP_ERROR_CODE => {
            Some(4)
        }
        PTYP_INTEGER_16 => Some(2),
        PTYP_BOOLEAN => Some(1),
        _ => None,
    }
}

/// Whether a value of this kind may have so many bytes: just the width of the field where it stands there itself, else any length below 2^32.
#[tactic(auto, unfolding(crate::specs::Values::fits))]
pub fn fits(kind: u16, len: usize) -> bool
    ensures { result ≡ fits kind len }
{
    match field_width(kind) {
        Some(width) => width == len,
        None => len < 0x1_0000_0000,
    }
}

/// A property's tag, and the bytes of its value. Contracts see a `Val`.
#[derive(Debug, Drop)]
pub struct Value {
    pub tag: Tag,
    pub bytes: Bytes,
}

impl Model for Value {
    ghost use Rattle.std.specs.Prelude.{IsTrue, length};
    ghost use Rattle.mapi_values.specs.Values.{Val, fits};

    ghost Value = { Val };

    ghost view = { λ v. record { id = v.tag.id; kind = v.tag.kind; bytes = v.bytes } };

    ghost invariant = { λ v. IsTrue (fits v.tag.kind (length v.bytes)) };
}

impl Value {
    ghost use Rattle.mapi_values.specs.Values.{Val, fits};

    /// The value with this tag and these bytes, as many as the kind may have.
    pub fn new(tag: Tag, bytes: Bytes) -> Value
        requires { IsTrue (fits tag.kind (length bytes)) }
        ensures id { result.id ≡ tag.id }
        ensures kind { result.kind ≡ tag.kind }
        ensures bytes { result.bytes ≡ bytes }
    {
        Value { tag, bytes }
    }

    /// The id of the property.
    pub fn id(&self) -> u16
        ensures { result ≡ self.now.id }
    {
        self.tag.id
    }

    /// The kind of the value.
    pub fn kind(&self) -> u16
        ensures { result ≡ self.now.kind }
    {
        self.tag.kind
    }

    /// The id and the kind.
    pub fn tag(&self) -> Tag
        ensures id { result.id ≡ self.now.id }
        ensures kind { result.kind ≡ self.now.kind }
    {
        Tag {
            id: self.tag.id,
            kind: self.tag.kind,
        }
    }

    /// The bytes of the value.
    pub fn bytes(&self) -> &[u8]
        ensures value { result.now ≡ self.now.bytes }
        ensures len { length result.now ≡ length self.now.bytes }
        ensures fit { IsTrue (fits self.now.kind (length self.now.bytes)) }
    {
        self.bytes.as_slice()
    }

    /// How many bytes the value has.
    pub fn len(&self) -> usize
        ensures len { result ≡ length self.now.bytes }
        ensures fit { IsTrue (fits self.now.kind (length self.now.bytes)) }
    {
        self.bytes.len()
    }

    /// The bytes of the value, without its tag.
    pub fn into_bytes(self) -> Bytes
        ensures { result ≡ self.bytes }
    {
        self.bytes
    }

    /// The same value again.
    pub fn copy(&self, alloc: Global) -> Result<Value, AllocError>
        ensures { IfOk result (λ v. v ≡ self.now) }
    {
        Ok(Value {
            tag: Tag {
                id: self.tag.id,
                kind: self.tag.kind,
            },
            bytes: self.bytes.copy(alloc)?,
        })
    }
}

impl Keyed for Value {
    ghost key_of = { λ v. v.id };

    fn key(&self) -> u32 {
        u32::from(self.tag.id)
    }
}
