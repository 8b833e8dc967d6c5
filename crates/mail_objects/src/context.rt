//! A node of properties.
ghost use Rattle.std.specs.Prelude.{◌≡◌, true, IfOk};

use mapi_values::Props;
use pst_base::{Nid, Subs};
use std::alloc::{AllocError, Global};
use std::marker::Model;

/// A node of properties, as that of a folder: its parent, the properties, and the subnodes that no property uses, which ascend by id. Contracts see a `Ctx`.
#[derive(Debug, Drop)]
pub struct Context {
    parent: Nid,
    props: Props,
    kept: Subs,
}

impl Model for Context {
    ghost use Rattle.std.specs.Prelude.{◌≡◌, true};
    ghost use Rattle.node_values.specs.Subnodes.{ids_ascend};
    ghost use Rattle.mail_objects.specs.Forms.{Ctx};

    ghost Value = { Ctx };

    ghost view = { λ c. record { parent = c.parent.bits; props = c.props; kept = c.kept } };

    ghost invariant = { λ c. ids_ascend 0 c.kept ≡ true };
}

impl Context {
    ghost use Rattle.node_values.specs.Subnodes.{ids_ascend};
    ghost use Rattle.mail_objects.specs.Forms.{Ctx};

    /// A node with this parent, these properties and these other subnodes, which ascend by id.
    pub fn new(parent: Nid, props: Props, kept: Subs) -> Context
        requires { ids_ascend 0 kept ≡ true }
        ensures parent { result.parent ≡ parent.bits }
        ensures props { result.props ≡ props }
        ensures kept { result.kept ≡ kept }
    {
        Context {
            parent,
            props,
            kept,
        }
    }

    /// The id of the parent.
    pub fn parent(&self) -> Nid
        ensures { result.bits ≡ self.now.parent }
    {
        self.parent
    }

    /// The properties.
    pub fn props(&self) -> &Props
        ensures { result.now ≡ self.now.props }
    {
        &self.props
    }

    /// The subnodes that no property uses.
    pub fn kept(&self) -> &Subs
        ensures kept { result.now ≡ self.now.kept }
        ensures ascend { ids_ascend 0 self.now.kept ≡ true }
    {
        &self.kept
    }

    /// The same node with other properties.
    pub fn with_props(self, props: Props) -> Context
        ensures parent { result.parent ≡ self.parent }
        ensures props { result.props ≡ props }
        ensures kept { result.kept ≡ self.kept }
    {
        Context {
            parent: self.parent,
            props,
            kept: self.kept,
        }
    }

    /// The same node with another parent.
    pub fn with_parent(self, parent: Nid) -> Context
        ensures parent { result.parent ≡ parent.bits }
        ensures props { result.props ≡ self.props }
        ensures kept { result.kept ≡ self.kept }
    {
        Context {
            parent,
            props: self.props,
            kept: self.kept,
        }
    }

    /// The same again.
    pub fn copy(&self, alloc: Global) -> Result<Context, AllocError>
        ensures { IfOk result (λ c. c ≡ self.now) }
    {
        Ok(Context {
            parent: self.parent,
            props: self.props.copy(alloc)?,
            kept: self.kept.copy(alloc)?,
        })
    }
}
