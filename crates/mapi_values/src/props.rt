//! The properties of one object.
ghost use Rattle.std.specs.Prelude.{◌≡◌, [], IfOk, OnErr, OnOk, is_some, length, option_copied};

use crate::keyed::{drop_keyed, find_keyed, put_keyed};
use crate::value::Value;
use std::alloc::{AllocError, Global};
use std::marker::Model;

/// The properties of one object: values that ascend strictly by id. Contracts see the list of values.
#[derive(Debug, Drop)]
pub struct Props {
    values: Vec<Value>,
}

impl Model for Props {
    ghost use Rattle.std.specs.Prelude.{List};
    ghost use Rattle.mapi_values.specs.Values.{Val};
    ghost use Rattle.mapi_values.specs.Properties.{IsProps};

    ghost Value = { List Val };

    ghost view = { λ p. p.values.items };

    ghost invariant = { λ p. IsProps p.values.items };
}

impl Props {
    ghost use Rattle.mapi_values.specs.Properties.{IsProps, find, put, remove_id};

    /// No properties. Takes no memory.
    pub fn new(alloc: Global) -> Props
        ensures { result ≡ [] }
    {
        Props {
            values: Vec::new(alloc),
        }
    }

    /// The properties of a vector, which it keeps. They ascend strictly by id.
    pub fn from_vec(values: Vec<Value>) -> Props
        requires { IsProps values.items }
        ensures { result ≡ values.items }
    {
        Props { values }
    }

    /// The vector that keeps the values.
    pub fn into_vec(self) -> Vec<Value>
        ensures values { result.items ≡ self }
        ensures props { IsProps self }
    {
        self.values
    }

    /// The values, ascending by id.
    pub fn values(&self) -> &[Value]
        ensures value { result.now ≡ self.now }
        ensures len { length result.now ≡ length self.now }
        ensures props { IsProps self.now }
    {
        self.values.as_slice()
    }

    /// How many values there are.
    pub fn len(&self) -> usize
        ensures { result ≡ length self.now }
    {
        self.values.len()
    }

    /// The value with this id.
    pub fn get(&self, id: u16) -> Option<&Value>
        ensures { option_copied result ≡ find id self.now }
    {
        find_keyed(self.values.as_slice(), u32::from(id))
    }

    /// Puts a value, in place of the one with its id. An `Err` changes nothing.
    pub fn put(&mut self, value: Value) -> Result<(), AllocError>
        ensures ok { OnOk result (self.new ≡ put value self.old) }
        ensures err { OnErr result (self.new ≡ self.old) }
    {
        // That its length is one of its kind is known of a value once a field is named.
        let _ = &value.tag;
        put_keyed(&mut self.values, value)
    }

    /// Removes the value with this id, and says whether there was one. Takes no memory.
    pub fn remove(&mut self, id: u16) -> bool
        ensures others { self.new ≡ remove_id id self.old }
        ensures found { result ≡ is_some (find id self.old) }
    {
        drop_keyed(&mut self.values, u32::from(id))
    }

    /// The same properties again.
    pub fn copy(&self, alloc: Global) -> Result<Props, AllocError>
        ensures { IfOk result (λ p. p ≡ self.now) }
    {
        let mut values = Vec::with_capacity(alloc, self.values.len())?;
        for value in self.values.iter() {
            values.push(value.copy(alloc)?)?;
        }
        Ok(Props { values })
    }
}
