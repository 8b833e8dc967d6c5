//! What laying a message out is worth.
ghost use Rattle.std.specs.Prelude.{◌≡◌, ℕ, List};
ghost use Rattle.pst_base.specs.declared.ids.Nid.{Nid};
ghost use Rattle.pst_base.specs.declared.subs.Sub.{Sub};
ghost use Rattle.mapi_values.specs.Messages.{Mes};
ghost use Rattle.mapi_values.specs.declared.part.Part.{Part};
ghost use Rattle.command_text.specs.declared.command.Held.TheVariants.{Message};
ghost use Rattle.mail_tree.specs.Parts.{new_part, part_holding};
ghost use Rattle.embedded_obj.specs.Embedding.{EMBEDDED, IsLaid, ShowsInner};

/// A new attachment with a message that was laid out for it holds that message, whatever its id and its name are.
pub fn holds_what_was_laid()
    ensures { (node : Sub) (m : Mes) → node.nid.bits ≡ EMBEDDED → IsLaid node m → (n : Nid) (name : List ℕ) (bytes : ℕ) → ShowsInner (new_part n name (Message bytes node)) m }
{}

/// An attachment that holds a message holds another one once that was laid out under the same id and put in its place.
pub fn holds_what_was_put()
    ensures { (part : Part) (old new : Mes) (node : Sub) → ShowsInner part old → node.nid.bits ≡ old.nid → IsLaid node new → ShowsInner (part_holding node part) new }
{}
