//! The pieces of the input, and what is said to each.
ghost use Rattle.std.specs.Prelude.{◌≡◌, ◌<◌, true, false, [], length, IfOk, IfErr};
ghost use Rattle.line_server.specs.Lines.{line, ending, full, last_piece, is_quit, without_cr};
ghost use Rattle.line_server.specs.Fronts.{StandsAt};
ghost use Rattle.line_server.specs.Spoken.{spoken_text, IsSaidTo};
ghost use Rattle.line_server.specs.History.{Answers, StopsAt};
ghost use Rattle.line_server.specs.Step.{AnswersPiece, PassesOverlong, StopsPiece};
ghost use Rattle.line_server.specs.Worlds.{Quiet};

use crate::answerer::LineAnswerer;
use crate::lines::{Front, LINE_LIMIT, LineBuffer};
use crate::spoken::Spoken;
use pst_outside::Outside;
use std::alloc::Global;

/// What is said to a piece, and whether the server ends with it.
#[derive(Drop)]
pub(crate) struct Answer {
    pub(crate) spoken: Spoken,
    pub(crate) quit: bool,
}

/// The line without a CR at its end.
#[tactic(auto, unfolding(crate::specs::Lines::without_cr))]
fn without_cr(bytes: &[u8]) -> &[u8]
    ensures { result.now ≡ without_cr bytes.now }
{
    match bytes.last() {
        Some(13) => &bytes[..bytes.len() - 1],
        _ => bytes,
    }
}

/// Answers a line.
fn reply_to<W: Outside, A: LineAnswerer<W>>(
    alloc: Global,
    answerer: &mut A,
    world: &mut W,
    bytes: &[u8],
) -> Result<Answer, A::Stop>
    ensures answers { IfOk result (λ answer. Answers A.answers (line bytes.now) answerer.old world.old (spoken_text answer.spoken) answerer.new world.new × (answer.quit ≡ is_quit (line bytes.now))) }
    ensures stops { IfErr result (λ stop. StopsAt A.stops (line bytes.now) answerer.old world.old stop answerer.new world.new) }
    ensures quiet { Quiet (W.view world.old) (W.view world.new) }
{
    match answerer.answer(alloc, world, bytes) {
        Ok(spoken) => Ok(Answer {
            spoken,
            quit: bytes == b"quit".as_slice(),
        }),
        Err(stop) => Err(stop),
    }
}

/// Nothing to say.
fn nothing() -> Answer
    ensures spoken { spoken_text result.spoken ≡ [] }
    ensures quit { result.quit ≡ false }
{
    Answer {
        spoken: Spoken::Nothing,
        quit: false,
    }
}

/// What is said to the piece that ends at an LF, whose front is given: to a line, or to the end of one that was too long.
fn ending_answer<W: Outside, A: LineAnswerer<W>>(
    alloc: Global,
    answerer: &mut A,
    world: &mut W,
    front: &[u8],
    long: bool,
) -> Result<Answer, A::Stop>
    ensures answers { IfOk result (λ answer. Answers A.answers (ending long front.now) answerer.old world.old (spoken_text answer.spoken) answerer.new world.new × (answer.quit ≡ is_quit (ending long front.now))) }
    ensures stops { IfErr result (λ stop. StopsAt A.stops (ending long front.now) answerer.old world.old stop answerer.new world.new) }
    ensures quiet { Quiet (W.view world.old) (W.view world.new) }
{
    if long {
        Ok(nothing())
    } else {
        reply_to(alloc, answerer, world, without_cr(front))
    }
}

/// What is said to a piece that is full: that its line is too long, once.
fn full_answer(long: bool) -> Answer
    ensures said { IsSaidTo (full long) (spoken_text result.spoken) }
    ensures quits { result.quit ≡ is_quit (full long) }
{
    if long {
        nothing()
    } else {
        Answer {
            spoken: Spoken::TooLong,
            quit: false,
        }
    }
}

/// What is said to the last piece, which has no LF.
fn last_answer<W: Outside, A: LineAnswerer<W>>(
    alloc: Global,
    answerer: &mut A,
    world: &mut W,
    front: &[u8],
    long: bool,
) -> Result<Answer, A::Stop>
    ensures answers { IfOk result (λ answer. Answers A.answers (last_piece long front.now) answerer.old world.old (spoken_text answer.spoken) answerer.new world.new × (answer.quit ≡ is_quit (last_piece long front.now))) }
    ensures stops { IfErr result (λ stop. StopsAt A.stops (last_piece long front.now) answerer.old world.old stop answerer.new world.new) }
    ensures quiet { Quiet (W.view world.old) (W.view world.new) }
{
    if long {
        Ok(nothing())
    } else {
        reply_to(alloc, answerer, world, front)
    }
}

/// Answers the line whose LF stands at a place, or the end of one that was too long.
pub(crate) fn answer_feed<W: Outside, A: LineAnswerer<W>>(
    alloc: Global,
    answerer: &mut A,
    world: &mut W,
    lines: &mut LineBuffer,
    long: &mut bool,
    feed: usize,
) -> Result<Answer, A::Stop>
    requires { StandsAt (Front.Line feed) lines.old }
    ensures answers { IfOk result (λ answer. AnswersPiece W.view A.answers false answerer.old world.old lines.old long.old answerer.new world.new lines.new long.new (spoken_text answer.spoken) answer.quit) }
    ensures stops { IfErr result (λ stop. StopsPiece W.view A.stops false answerer.old world.old lines.old long.old answerer.new world.new lines.new long.new stop) }
{
    let held = lines.held();
    let answer = ending_answer(alloc, answerer, world, &held[..feed], *long);
    lines.pass(feed + 1);
    *long = false;
    answer
}

/// Answers the front of a line that is too long, or says nothing where it was answered.
pub(crate) fn answer_overlong(lines: &mut LineBuffer, long: &mut bool) -> Answer
    requires { StandsAt Front.Overlong lines.old }
    ensures { PassesOverlong lines.old long.old lines.new long.new (spoken_text result.spoken) result.quit }
{
    let answer = full_answer(*long);
    lines.pass(LINE_LIMIT);
    *long = true;
    answer
}

/// Answers the last line, which has no LF.
pub(crate) fn answer_last<W: Outside, A: LineAnswerer<W>>(
    alloc: Global,
    answerer: &mut A,
    world: &mut W,
    lines: &mut LineBuffer,
    long: &mut bool,
) -> Result<Answer, A::Stop>
    requires stands { StandsAt Front.Open lines.old }
    requires some { 0 < length lines.old }
    ensures answers { IfOk result (λ answer. AnswersPiece W.view A.answers true answerer.old world.old lines.old long.old answerer.new world.new lines.new long.new (spoken_text answer.spoken) answer.quit) }
    ensures stops { IfErr result (λ stop. StopsPiece W.view A.stops true answerer.old world.old lines.old long.old answerer.new world.new lines.new long.new stop) }
{
    let held = lines.held();
    let n = held.len();
    let answer = last_answer(alloc, answerer, world, held, *long);
    lines.pass(n);
    *long = false;
    answer
}
