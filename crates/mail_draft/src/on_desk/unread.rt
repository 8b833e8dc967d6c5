//! Messages that are unread.
ghost use Rattle.mail_tree.specs.Settling.{unread_among};
ghost use Rattle.mail_draft.specs.Sight.{Answers, Reads};

use crate::desk::Desk;
use crate::stop::Stop;
use crate::unread::one_if;
use pst_base::Nid;

/// How many of these messages are unread.
pub(crate) fn unread_among<D: Desk>(desk: &mut D, ids: &[u32]) -> Result<u64, Stop>
    ensures reads { Reads (D.view desk.old) (D.view desk.new) result }
    ensures answer { Answers (D.view desk.old) (λ n. n) (λ T c. unread_among T c ids.now) result }
{
    let mut unread = 0;
    for id in ids {
        let one_more = desk.is_unread(Nid { bits: *id })?;
        unread += one_if(one_more);
    }
    Ok(unread)
}
