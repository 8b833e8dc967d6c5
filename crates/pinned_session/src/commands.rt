//! Commands of the store carried out beside pins.
ghost use Rattle.std.specs.Prelude.{◌≡◌, Bool, true, IfErr};
ghost use Rattle.line_server.specs.Worlds.{Quiet};
ghost use Rattle.mail_searches.specs.Searching.{Searching};
ghost use Rattle.pinned_views.specs.Telling.{KeepsTold};
ghost use Rattle.store_session.specs.Carrying.{CarriesOut, Has, IsCaused, StandsOrdered};
ghost use Rattle.store_session.specs.Disks.{effects_of, medium};
ghost use Rattle.store_session.specs.Run.{CommandAnswers};

use command_text::Command;
use line_server::Spoken;
use node_port::Saver;
use pinned_views::{Around, UnderPins};
use pst_outside::Outside;
use std::alloc::Global;
use std::marker::{Brand, PhantomData};
use store_session::search_store::SearchStore;
use store_session::{Store, StoreStop, carry_out};

/// Carries out a command over a keeper whose pins are to tell something, and gives the store back: its pins tell that still.
fn carry_under<P: Around, W: Outside, K: Saver<W>>(
    alloc: Global,
    store: SearchStore<K>,
    world: &mut W,
    command: &Command,
) -> (SearchStore<K>, Result<Spoken, StoreStop>)
    requires told { KeepsTold P.told (K.pinned store.store.keeper (W.view world.old)) }
    ensures carries { (tidy : Bool) (X : Searching) → Has (K.holds store.store.keeper (W.view world.old)) (K.last store.store.keeper) store.store.known store.searches K.rests (W.view world.old) tidy X → (K.has_disk ≡ true → (W.view world.new).tells)
        → CarriesOut (λ Y. Has (K.holds result.0.store.keeper (W.view world.new)) (K.last result.0.store.keeper) result.0.store.known result.0.searches K.rests (W.view world.new) tidy Y × KeepsTold P.told (K.pinned result.0.store.keeper (W.view world.new)))
        (StandsOrdered tidy (K.stands (K.room store.store.keeper).found)) (λ told. CommandAnswers (effects_of (K.room store.store.keeper).pins K.measures K.applied K.saved) (K.room store.store.keeper) X (medium (W.view world.old)) told command.now) (W.view world.old) (W.view world.new) X result.1 }
    ensures found { (K.room result.0.store.keeper).found ≡ (K.room store.store.keeper).found }
    ensures pins { (K.room result.0.store.keeper).pins ≡ (K.room store.store.keeper).pins }
    ensures cause { IfErr result.1 (IsCaused K.has_disk (W.view world.old) (W.view world.new)) }
    ensures quiet { Quiet (W.view world.old) (W.view world.new) }
{
    let SearchStore {
        store: Store { keeper, known },
        searches,
    } = store;
    let keeper: UnderPins<K, P> = UnderPins {
        keeper,
        around: PhantomData,
    };
    let mut under = SearchStore {
        store: Store { keeper, known },
        searches,
    };
    let answer = carry_out(alloc, &mut under, world, command);
    let SearchStore {
        store: Store { keeper, known },
        searches,
    } = under;
    let UnderPins { keeper, .. } = keeper;
    let store = SearchStore {
        store: Store { keeper, known },
        searches,
    };
    (store, answer)
}

/// Carries out a command, and gives the store back. Each pin tells what it told.
pub(crate) fn carry_keeping<W: Outside, K: Saver<W>>(
    alloc: Global,
    store: SearchStore<K>,
    world: &mut W,
    command: &Command,
) -> (SearchStore<K>, Result<Spoken, StoreStop>)
    ensures carries { (tidy : Bool) (X : Searching) → Has (K.holds store.store.keeper (W.view world.old)) (K.last store.store.keeper) store.store.known store.searches K.rests (W.view world.old) tidy X → (K.has_disk ≡ true → (W.view world.new).tells)
        → CarriesOut (λ Y. Has (K.holds result.0.store.keeper (W.view world.new)) (K.last result.0.store.keeper) result.0.store.known result.0.searches K.rests (W.view world.new) tidy Y × KeepsTold (K.pinned store.store.keeper (W.view world.old)) (K.pinned result.0.store.keeper (W.view world.new)))
        (StandsOrdered tidy (K.stands (K.room store.store.keeper).found)) (λ told. CommandAnswers (effects_of (K.room store.store.keeper).pins K.measures K.applied K.saved) (K.room store.store.keeper) X (medium (W.view world.old)) told command.now) (W.view world.old) (W.view world.new) X result.1 }
    ensures found { (K.room result.0.store.keeper).found ≡ (K.room store.store.keeper).found }
    ensures pins { (K.room result.0.store.keeper).pins ≡ (K.room store.store.keeper).pins }
    ensures cause { IfErr result.1 (IsCaused K.has_disk (W.view world.old) (W.view world.new)) }
    ensures quiet { Quiet (W.view world.old) (W.view world.new) }
{
    carry_under::<Brand, W, K>(alloc, store, world, command)
}
