//! The lines on messages in attachments over a keeper and its world: a desk is made for the call.
ghost use Rattle.std.specs.Prelude.{◌≡◌, IfErr};
ghost use Rattle.mail_tree.specs.Knowing.{Knows};
ghost use Rattle.mail_tree.specs.Tree.{Shown, Tree};
ghost use Rattle.mail_tree.specs.Whole.{IsWhole};
ghost use Rattle.mail_parts.specs.mail_draft.Answers.{IsCaused, Looks};
ghost use Rattle.mail_parts.specs.mail_draft.Showing.{Showing};
ghost use Rattle.mail_embedding.specs.Meant.{Means};

use crate::lines;
use crate::meaning::Meaning;
use command_text::EmbeddedCommand;
use mail_parts::mail_draft::{Draft, Seen, Stop, StoreDesk};
use mail_tree::Known;
use node_port::NodeReader;
use pst_outside::Outside;
use std::alloc::Global;

/// What a line on the message in an attachment comes to, on a desk over a keeper.
fn meant<W: Outside, K: NodeReader<W>>(
    desk: &mut StoreDesk<'_, '_, '_, '_, '_, '_, W, K>,
    line: &EmbeddedCommand,
) -> Result<Meaning, Stop>
    ensures names { (desk.new.keeper.ghost_name ≡ desk.old.keeper.ghost_name) × (desk.new.world.ghost_name ≡ desk.old.world.ghost_name) × (desk.new.seen.ghost_name ≡ desk.old.seen.ghost_name) × (desk.new.draft.ghost_name ≡ desk.old.draft.ghost_name) }
    ensures answer { (T : Tree) → Showing (K.holds desk.old.keeper.now (W.view desk.old.world.now)) (K.last desk.old.keeper.now) desk.old.places.now desk.old.flags.now desk.old.seen.now T → IsWhole T → Means T line.now result }
    ensures looks { Looks (K.holds desk.old.keeper.now (W.view desk.old.world.now)) (K.holds desk.new.keeper.now (W.view desk.new.world.now)) (K.last desk.old.keeper.now) (K.last desk.new.keeper.now) (K.room desk.old.keeper.now) (K.room desk.new.keeper.now) (W.view desk.old.world.now) (W.view desk.new.world.now) }
    ensures cause { IfErr result (IsCaused K.has_disk (W.view desk.old.world.now).disk_faults (W.view desk.new.world.now).disk_faults) }
{
    lines::mean(desk, line)
}

/// What a line on the message in an attachment comes to, on every whole tree that the nodes show. Refused, in this order: a message isn't there, the left one before the right one, or has no such attachment (`Object`); the attachment holds no message (`Embedded`); as `set` and `unset` are on any message; and of `embed` as its message has no room for the other (`Limit(Rows)`, `Limit(Nesting)`, `Ids`). Nothing changes.
pub fn mean<W: Outside, K: NodeReader<W>>(
    alloc: Global,
    keeper: &mut K,
    w: &mut W,
    known: &Known,
    line: &EmbeddedCommand,
) -> Result<Meaning, Stop>
    ensures answer { (T : Tree) → Shown (K.holds keeper.old (W.view w.old)) (K.last keeper.old) T → Knows T known.now → IsWhole T → Means T line.now result }
    ensures looks { Looks (K.holds keeper.old (W.view w.old)) (K.holds keeper.new (W.view w.new)) (K.last keeper.old) (K.last keeper.new) (K.room keeper.old) (K.room keeper.new) (W.view w.old) (W.view w.new) }
    ensures cause { IfErr result (IsCaused K.has_disk (W.view w.old).disk_faults (W.view w.new).disk_faults) }
{
    let mut seen = Seen::new(alloc);
    let mut draft = Draft::new(alloc);
    let mut desk = StoreDesk {
        keeper,
        world: w,
        places: &known.places,
        flags: &known.flags,
        seen: &mut seen,
        draft: &mut draft,
        alloc,
    };
    meant(&mut desk, line)
}
