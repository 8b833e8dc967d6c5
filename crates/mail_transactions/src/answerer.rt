//! A session as what answers lines.
use crate::lines::answer_line;
use crate::store::SessionStore;
use line_server::{LineAnswerer, Spoken};
use node_port::{Pinner, Saver};
use pst_outside::Outside;
use staged_store::pinned_session::store_session::StoreStop;
use std::alloc::Global;

/// A session that answers lines. It is there but while it answers one.
#[derive(Drop)]
pub(crate) struct SessionAnswerer<K> {
    pub(crate) session: Option<SessionStore<K>>,
}

impl<W: Outside, K: Pinner<W> + Saver<W> + Drop> LineAnswerer<W> for SessionAnswerer<K> {
    type Stop = StoreStop;

    ghost use Rattle.staged_store.specs.pinned_session.store_session.Disks.{effects_of};
    ghost use Rattle.mail_transactions.specs.Lines.{AnswersLine, StopsLine};
    ghost use Rattle.mail_transactions.specs.Stands.{StandsCommitted, StandsSome, room_of};

    ghost answers = { λ a v bytes said b w. AnswersLine (StandsSome W.view K.holds K.last K.pinned K.room K.rests a.session v) (StandsSome W.view K.holds K.last K.pinned K.room K.rests b.session w)
        (StandsCommitted K.stands) (λ pins. effects_of pins K.measures K.applied K.saved) (room_of K.room a.session) K.has_disk (W.view v) (W.view w) bytes said };

    ghost stops = { λ a v bytes stop b w. StopsLine (StandsSome W.view K.holds K.last K.pinned K.room K.rests a.session v)
        (StandsCommitted K.stands) (λ pins. effects_of pins K.measures K.applied K.saved) (room_of K.room a.session) K.has_disk (W.view v) (W.view w) bytes stop };

    fn answer(&mut self, alloc: Global, world: &mut W, line: &[u8]) -> Result<Spoken, StoreStop> {
        let Some(session) = self.session.take() else {
            return Ok(Spoken::NoMemory);
        };
        let (session, answer) = answer_line(alloc, session, world, line);
        self.session = Some(session);
        answer
    }
}
