//! What answers lines.
ghost use Rattle.std.specs.Prelude.{ℕ, List, IfOk, IfErr};
ghost use Rattle.line_server.specs.Spoken.{spoken_text};
ghost use Rattle.line_server.specs.Worlds.{Quiet};

use crate::Spoken;
use pst_outside::Outside;
use std::alloc::Global;

/// What answers lines, one after another, over a world. It takes no input. That it says nothing itself is for `answers` and `stops` to tell (`Hushes`), since it may hang on its state.
pub trait LineAnswerer<W: Outside> {
    /// Why it can't go on: it then has no reply, and takes no line more.
    type Stop: Drop;

    /// From a state over a world, a line was answered by a text, which left a state over a world.
    ghost answers: { Self → W → List ℕ → List ℕ → Self → W → Type 0 };

    /// From a state over a world, a line was taken, and it stopped without a reply, which left a state over a world.
    ghost stops: { Self → W → List ℕ → Self.Stop → Self → W → Type 0 };

    /// Answers a line, which has no LF at its end. What it gives is said next. An `Err` ends the server: nothing is said, and no line more is taken.
    fn answer(&mut self, alloc: Global, world: &mut W, line: &[u8]) -> Result<Spoken, Self::Stop>
        ensures answers { IfOk result (λ spoken. answers self.old world.old line.now (spoken_text spoken) self.new world.new) }
        ensures stops { IfErr result (λ stop. stops self.old world.old line.now stop self.new world.new) }
        // The input that is left is as before, and no count of faults falls.
        ensures quiet { Quiet (W.view world.old) (W.view world.new) };
}
