//! What the definition of an object's node is worth.
ghost use Rattle.std.specs.Prelude.{◌≡◌, ℕ};
ghost use Rattle.mapi_values.specs.Messages.{Mes};
ghost use Rattle.node_port.specs.declared.node.NodeRec.{NodeRec};
ghost use Rattle.mail_objects.specs.Forms.{Ctx, Tbl};
ghost use Rattle.pst_base.specs.declared.ids.Nid.{Nid};
ghost use Rattle.mail_objects.specs.Objects.{ShowsBare, ShowsContext, ShowsMail, ShowsTable};

/// A node is at most one object of each form, so that an object that was written is read again.
pub fn one_object()
    ensures context { (node : NodeRec) (a b : Ctx) → ShowsContext node a → ShowsContext node b → a ≡ b }
    ensures table { (node : NodeRec) (a b : Tbl) → ShowsTable node a → ShowsTable node b → a ≡ b }
    ensures bare { (node : NodeRec) (a b : Nid) → ShowsBare node a → ShowsBare node b → a ≡ b }
    ensures mail { (nid : ℕ) (node : NodeRec) (a b : Mes) → ShowsMail nid node a → ShowsMail nid node b → a ≡ b }
{}
