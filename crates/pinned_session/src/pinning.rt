//! Pins made and given up.
ghost use Rattle.std.specs.Prelude.{◌≡◌, ◌⊎◌, ℕ, Bool, List};
ghost use Rattle.line_server.specs.Spoken.{no_memory_text, spoken_text};
ghost use Rattle.session_lines.specs.Texts.{pin_text};
ghost use Rattle.pinned_session.specs.Sitting.{Sitting};
ghost use Rattle.pinned_session.specs.Pinning.{PinsAs, UnpinsAs};
ghost use Rattle.pinned_session.specs.Sits.{Sits};

use crate::pins::{PinnedStore, place_of, view_of};
use line_server::Spoken;
use node_port::{Pinner, PinsFull};
use pst_base::MemOr;
use pst_outside::Outside;
use session_lines::{PinReply, pin_reply_text};
use std::alloc::Global;

/// What is said of a pin.
pub(crate) fn pin_spoken(alloc: Global, reply: PinReply) -> Spoken
    ensures { (spoken_text result ≡ pin_text reply) ⊎ (spoken_text result ≡ no_memory_text) }
{
    match pin_reply_text(alloc, reply) {
        Ok(text) => Spoken::Reply(text),
        Err(_) => Spoken::NoMemory,
    }
}

/// Makes a pin of the present tree, with the next number. Its reply is made before, and where there is no memory nothing changes.
pub(crate) fn make_pin<W: Outside, K: Pinner<W>>(
    alloc: Global,
    pinned: &mut PinnedStore<K>,
) -> Spoken
    ensures { (v : W) (found : List ℕ) (tidy : Bool) (S : Sitting) → Sits W.view K.holds K.last K.pinned K.room K.rests pinned.old v found tidy S → PinsAs (Sits W.view K.holds K.last K.pinned K.room K.rests pinned.new v found tidy) S (spoken_text result) }
{
    let Some(number) = pinned.given.checked_add(1) else {
        return pin_spoken(alloc, PinReply::PinsFull);
    };
    let Ok(text) = pin_reply_text(alloc, PinReply::Pinned(number)) else {
        return Spoken::NoMemory;
    };
    let counts = pinned.store.store.keeper.counts();
    let Ok(view) = view_of(
        alloc,
        number,
        counts,
        &pinned.store.store.known,
        &pinned.store.searches,
    ) else {
        return Spoken::NoMemory;
    };
    let Ok(()) = pinned.pins.push(view) else {
        return Spoken::NoMemory;
    };
    match pinned.store.store.keeper.pin(alloc) {
        Ok(_number) => {
            pinned.given = number;
            Spoken::Reply(text)
        }
        Err(stop) => {
            let _taken_back = pinned.pins.pop();
            match stop {
                MemOr::Memory => Spoken::NoMemory,
                MemOr::Refused(PinsFull) => pin_spoken(alloc, PinReply::PinsFull),
            }
        }
    }
}

/// Gives up the pin that a line names. Its reply is made before, and where there is no memory nothing changes.
pub(crate) fn give_up<W: Outside, K: Pinner<W>>(
    alloc: Global,
    pinned: &mut PinnedStore<K>,
    pin: Option<u32>,
) -> Spoken
    ensures { (v : W) (found : List ℕ) (tidy : Bool) (S : Sitting) → Sits W.view K.holds K.last K.pinned K.room K.rests pinned.old v found tidy S → UnpinsAs (Sits W.view K.holds K.last K.pinned K.room K.rests pinned.new v found tidy) S pin (spoken_text result) }
{
    let Some(place) = place_of(pinned.pins.as_slice(), pin) else {
        return pin_spoken(alloc, PinReply::NoPin);
    };
    let Ok(text) = pin_reply_text(alloc, PinReply::Unpinned) else {
        return Spoken::NoMemory;
    };
    let view = pinned.pins.remove(place);
    let _was_open = pinned.store.store.keeper.unpin(view.number);
    Spoken::Reply(text)
}
