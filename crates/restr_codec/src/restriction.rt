//! A restriction as a tree.
ghost use Rattle.std.specs.Prelude.{◌≡◌, IfOk};

use mapi_values::{Tag, Value};
use std::alloc::{AllocError, Global};
use std::marker::Model;

/// How one value stands to another.
#[derive(Clone, Copy, Debug, PartialEq, Eq)]
pub enum Relation {
    Less,
    AtMost,
    Greater,
    AtLeast,
    Equal,
    NotEqual,
}

/// Where the value that is looked for stands in a property's value ([MS-OXCDATA] 2.12.4, FuzzyLevelLow).
#[derive(Clone, Copy, Debug, PartialEq, Eq)]
pub enum FuzzyLevel {
    /// It is the whole value.
    FullString,
    /// It stands anywhere in it.
    Substring,
    /// It stands at its front.
    Prefix,
}

/// Which differences between texts don't count ([MS-OXCDATA] 2.12.4, FuzzyLevelHigh).
#[derive(Clone, Copy, Debug, PartialEq, Eq)]
pub struct FuzzyFlags {
    pub ignore_case: bool,
    pub ignore_nonspace: bool,
    pub loose: bool,
}

/// What is asked of the bits that a mask leaves.
#[derive(Clone, Copy, Debug, PartialEq, Eq)]
pub enum BitTest {
    /// None is set.
    Zero,
    /// Some is set.
    NotZero,
}

/// The objects of a message that have properties of their own.
#[derive(Clone, Copy, Debug, PartialEq, Eq)]
pub enum SubTable {
    Recipients,
    Attachments,
}

/// What a search asks of a message ([MS-OXCDATA] 2.12). Contracts see a `Restr`. A value that is looked for or compared with has the length of its kind.
#[cycle(restriction)]
#[derive(Debug, Drop)]
pub struct Restriction {
    pub form: Form,
}

/// The forms of restrictions. A form with a value asks for the property that the value's tag names.
#[cycle(restriction)]
#[derive(Debug, Drop)]
pub enum Form {
    /// All of these hold.
    And(Vec<Restriction>),
    /// Some of these holds.
    Or(Vec<Restriction>),
    /// This doesn't hold.
    Not(Box<Restriction>),
    /// The value stands in the property's.
    Content {
        level: FuzzyLevel,
        flags: FuzzyFlags,
        value: Value,
    },
    /// The property's value stands in the relation to this one.
    Property {
        relation: Relation,
        value: Value,
    },
    /// The left property's value stands in the relation to the right one's.
    CompareProps {
        relation: Relation,
        left: Tag,
        right: Tag,
    },
    /// The test holds of the property's value under the mask.
    BitMask {
        test: BitTest,
        tag: Tag,
        mask: u32,
    },
    /// The number of bytes of the property's value stands in the relation to this size.
    Size {
        relation: Relation,
        tag: Tag,
        size: u32,
    },
    /// The property is there.
    Exist(Tag),
    /// The restriction holds of some of the objects in the table.
    SubObject {
        table: SubTable,
        inner: Box<Restriction>,
    },
    /// The restriction holds, if there is one. The values are for whoever put them there.
    Comment {
        values: Vec<Value>,
        inner: Option<Box<Restriction>>,
    },
}

impl Model for Restriction {
    ghost use Rattle.restr_codec.specs.Restr.{Restr, count};

    ghost Value = { Restr };

    ghost use Rattle.std.specs.Coded.{codes};
    ghost use Rattle.restr_codec.specs.Items.{restr_code};

    ghost coded = { restr_code (Prim.hlevel codes) };

    ghost use Rattle.restr_codec.specs.Forms.{restr};

    ghost view = { λ r. restr r.form };

    ghost use Rattle.std.specs.Prelude.{◌≡◌, true};
    ghost use Rattle.restr_codec.specs.Kinds.{is_sound_form};

    ghost invariant = { λ r. is_sound_form r.form ≡ true };

    ghost size = { count };

    ghost use Rattle.restr_codec.specs.Falls.{falls};

    ghost size_decreases = { λ r h. falls r.form };
}

/// The same values again.
fn copy_values(alloc: Global, values: &[Value]) -> Result<Vec<Value>, AllocError>
    ensures { IfOk result (λ copied. copied.items ≡ values.now) }
{
    let mut copied = Vec::with_capacity(alloc, values.len())?;
    for value in values {
        copied.push(value.copy(alloc)?)?;
    }
    Ok(copied)
}

/// The same restrictions again.
#[cycle(copy)]
#[tactic(auto, using(crate::proofs::Counts::count_at))]
fn copy_all(alloc: Global, inner: &Vec<Restriction>) -> Result<Vec<Restriction>, AllocError>
    ensures { IfOk result (λ copied. copied.items ≡ inner.now.items) }
{
    let mut copied = Vec::with_capacity(alloc, inner.len())?;
    for one in inner {
        copied.push(one.copy(alloc)?)?;
    }
    Ok(copied)
}

impl Restriction {
    /// The same restriction again.
    #[cycle(copy)]
    #[tactic(auto, using(crate::proofs::Counts::count_at))]
    pub fn copy(&self, alloc: Global) -> Result<Restriction, AllocError>
        ensures { IfOk result (λ copied. copied ≡ self.now) }
    {
        let form = match &self.form {
            Form::And(inner) => Form::And(copy_all(alloc, inner)?),
            Form::Or(inner) => Form::Or(copy_all(alloc, inner)?),
            Form::Not(inner) => Form::Not(Box::new(alloc, inner.copy(alloc)?)?),
            Form::Content {
                level,
                flags,
                value,
            } => Form::Content {
                level: *level,
                flags: *flags,
                value: value.copy(alloc)?,
            },
            Form::Property { relation, value } => Form::Property {
                relation: *relation,
                value: value.copy(alloc)?,
            },
            Form::CompareProps {
                relation,
                left,
                right,
            } => Form::CompareProps {
                relation: *relation,
                left: *left,
                right: *right,
            },
            Form::BitMask { test, tag, mask } => Form::BitMask {
                test: *test,
                tag: *tag,
                mask: *mask,
            },
            Form::Size {
                relation,
                tag,
                size,
            } => Form::Size {
                relation: *relation,
                tag: *tag,
                size: *size,
            },
            Form::Exist(tag) => Form::Exist(*tag),
            Form::SubObject { table, inner } => Form::SubObject {
                table: *table,
                inner: Box::new(alloc, inner.copy(alloc)?)?,
            },
            Form::Comment { values, inner } => {
                let values = copy_values(alloc, values.as_slice())?;
                match inner {
                    Some(inner) => Form::Comment {
                        values,
                        inner: Some(Box::new(alloc, inner.copy(alloc)?)?),
                    },
                    None => Form::Comment {
                        values,
                        inner: None,
                    },
                }
            }
        };
        Ok(Restriction { form })
    }
}
