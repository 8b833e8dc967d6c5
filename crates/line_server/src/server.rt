//! The turns of a server of lines.
ghost use Rattle.std.specs.Prelude.{◌≡◌, IfOk, OnErr};
ghost use Rattle.line_server.specs.Fronts.{IsReady};
ghost use Rattle.line_server.specs.Step.{AnswersFront, Steps, Spoke};
ghost use Rattle.line_server.specs.States.{state_of};
ghost use Rattle.line_server.specs.Server.{ServerEnds, Starts};

use crate::answerer::LineAnswerer;
use crate::end::ServerEnd;
use crate::input::next_front;
use crate::lines::{Front, LineBuffer};
use crate::pieces::{Answer, answer_feed, answer_last, answer_overlong};
use pst_outside::{Failed, Outside, say_all};
use std::alloc::{AllocError, Global};

/// How many lines a server takes.
const LINES: u64 = 1 << 32;

/// A server between two lines.
#[derive(Drop)]
pub(crate) struct Server {
    lines: LineBuffer,
    long: bool,
    ended: bool,
}

impl Server {
    /// A server that has taken nothing. All memory that its input needs is taken here.
    fn start(alloc: Global) -> Result<Server, AllocError>
        ensures { IfOk result (λ s. Starts (state_of s)) }
    {
        Ok(Server {
            lines: LineBuffer::new(alloc)?,
            long: false,
            ended: false,
        })
    }

    /// Answers what stands at the front, or gives None where the input has ended and all of it was answered. An `Err` is that of what answers lines.
    fn answer<W: Outside, A: LineAnswerer<W>>(
        &mut self,
        alloc: Global,
        answerer: &mut A,
        world: &mut W,
        front: Front,
    ) -> Result<Option<Answer>, A::Stop>
        requires { IsReady front self.old.ended self.old.lines }
        ensures answers { AnswersFront W.view A.answers A.stops self.old.ended answerer.old world.old self.old.lines self.old.long answerer.new world.new self.new.lines self.new.long result }
        ensures ended { self.new.ended ≡ self.old.ended }
    {
        match front {
            Front::Line { feed } => {
                let answer = answer_feed(
                    alloc,
                    answerer,
                    world,
                    &mut self.lines,
                    &mut self.long,
                    feed,
                )?;
                Ok(Some(answer))
            }
            Front::Overlong => {
                let answer = answer_overlong(&mut self.lines, &mut self.long);
                Ok(Some(answer))
            }
            Front::Open => {
                if self.lines.held().len() == 0 {
                    return Ok(None);
                }
                let answer = answer_last(alloc, answerer, world, &mut self.lines, &mut self.long)?;
                Ok(Some(answer))
            }
        }
    }

    /// One turn: takes input until there is a line, has it answered and says the reply. Gives how the server ends, if it does.
    fn turn<W: Outside, A: LineAnswerer<W>>(
        &mut self,
        alloc: Global,
        answerer: &mut A,
        world: &mut W,
    ) -> Option<ServerEnd<A::Stop>>
        ensures { Steps W.view A.answers A.stops (state_of self.old) (state_of self.new) answerer.old world.old answerer.new world.new result }
    {
        let front = match next_front(&mut self.lines, &mut self.ended, world) {
            Ok(front) => front,
            Err(Failed) => return Some(ServerEnd::Input),
        };
        match self.answer(alloc, answerer, world, front) {
            Ok(Some(answer)) => speak(world, &answer),
            Ok(None) => Some(ServerEnd::Done),
            Err(stop) => Some(ServerEnd::Stopped(stop)),
        }
    }
}

/// Says an answer. Gives how the server ends with it, if it does.
fn speak<W: Outside, S>(world: &mut W, answer: &Answer) -> Option<ServerEnd<S>>
    ensures { Spoke answer.now (W.view world.old) (W.view world.new) result }
{
    match say_all(world, answer.spoken.text()) {
        Ok(()) if answer.quit => Some(ServerEnd::Done),
        Ok(()) => None,
        Err(Failed) => Some(ServerEnd::Output),
    }
}

/// Has lines answered, one after another, until the input ends, a line is `quit`, the input or the output fails, what answers them stops, or 2^32 lines were taken. A line ends at an LF, and a CR before that is no part of it; what follows the last LF is a line too, if the input ends there. A line of more than 1,048,576 bytes, a CR included, is answered `no limit line`, and the rest of it is passed.
///
/// An `Err` comes of want of memory at the start, before anything is taken.
pub fn serve<W: Outside, A: LineAnswerer<W>>(
    alloc: Global,
    answerer: &mut A,
    world: &mut W,
) -> Result<ServerEnd<A::Stop>, AllocError>
    // The lines are those of the input; each has its turn, in their order, and its reply is said.
    ensures ends { IfOk result (λ end. ServerEnds W.view A.answers A.stops answerer.old world.old answerer.new world.new end) }
    ensures no_memory { OnErr result ((answerer.new ≡ answerer.old) × (world.new ≡ world.old)) }
{
    let mut server = Server::start(alloc)?;
    for _count in 0..LINES {
        if let Some(end) = server.turn(alloc, answerer, world) {
            return Ok(end);
        }
    }
    Ok(ServerEnd::Lines)
}
