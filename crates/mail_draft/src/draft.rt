//! What a command has changed so far.
ghost use Rattle.std.specs.Prelude.{◌≡◌, true, Option, IfOk};
ghost use Rattle.mail_draft.specs.Placed.{are_placed};

use mail_objects::Object;
use pst_base::Nid;
use std::alloc::{AllocError, Global};
use std::collections::BTreeMap;

/// Objects that a command has put, or removed (`None`), by their ids. Contracts see `changed_of` it.
#[derive(Debug, Drop)]
pub struct Draft {
    pub(crate) objects: BTreeMap<u32, Option<Object>>,
    ghost placed: { are_placed objects.entries ≡ true },
}

impl Draft {
    ghost use Rattle.std.specs.Bool.{OnFalse, OnTrue};
    ghost use Rattle.std.specs.Option.{option_copied};
    ghost use Rattle.std.specs.FinMap as map;
    ghost use Rattle.mail_draft.specs.Placed.{is_placed};
    ghost use Rattle.mail_draft.specs.Drafts.{changed_of};
    ghost use Rattle.mail_tree.specs.Changing.{nothing, with_object};
    ghost use Rattle.mail_objects.specs.declared.object.Object.{Object};

    /// No changes. Takes no memory.
    pub fn new(alloc: Global) -> Draft
        ensures { changed_of result ≡ nothing }
    {
        Draft {
            objects: BTreeMap::new(alloc),
        }
    }

    /// What was put at an id or removed from it, if anything was.
    pub fn get(&self, nid: Nid) -> Option<&Option<Object>>
        ensures { option_copied result ≡ map.get (changed_of self.now).objects nid.bits }
    {
        self.objects.get(&nid.bits)
    }

    /// Whether nothing was put or removed.
    pub fn is_empty(&self) -> bool
        ensures empty { OnTrue result ((changed_of self.now).objects ≡ map.empty) }
        ensures some { OnFalse result ((changed_of self.now).objects ≡ map.empty → ⊥) }
    {
        self.objects.is_empty()
    }

    /// The draft with an object put at an id, or with what stands there removed. A message is put at its own id.
    pub fn with(self, nid: Nid, object: Option<Object>) -> Result<Draft, AllocError>
        requires { is_placed (nid.bits, object) ≡ true }
        ensures { IfOk result (λ d. changed_of d ≡ with_object nid.bits object (changed_of self)) }
    {
        let Draft { mut objects } = self;
        let _replaced = objects.insert(nid.bits, object)?;
        Ok(Draft { objects })
    }

    /// The draft without what was put at an id or removed from it, and what that was, if anything. Takes no memory.
    pub(crate) fn take(self, nid: Nid) -> (Draft, Option<Option<Object>>)
        ensures rest { (object : Option Object) → with_object nid.bits object (changed_of result.0) ≡ with_object nid.bits object (changed_of self) }
        ensures taken { result.1 ≡ map.get (changed_of self).objects nid.bits }
    {
        let Draft { mut objects } = self;
        let taken = objects.remove(&nid.bits);
        (Draft { objects }, taken)
    }
}
