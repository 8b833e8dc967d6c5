//! The call of the program.
ghost use Rattle.std.specs.Prelude.{◌≡◌, ◌↔◌, ◌⊎◌, ℕ, true, List, None, Some, IsSome};
ghost use Rattle.mail_session.specs.Asking.{is_naming};
ghost use Rattle.mail_session.specs.Ends.{EndsFor};
ghost use Rattle.mail_session.specs.Compact.{CompactEnds};
ghost use Rattle.mail_session.specs.Decode.{DecodeEnds};
ghost use Rattle.mail_session.specs.Files.{EndsWell, NewEnds, RunEnds};
ghost use Rattle.mail_session.specs.Words.{fill_numbers, form_of, spelled, third_name};
ghost use Rattle.mail_session.specs.Statuses.{EndsAs};
ghost use Rattle.mail_session.specs.Fill.{FillEnds};
ghost use Rattle.mail_session.specs.Info.{InfoEnds};
ghost use Rattle.mail_session.specs.Look.{LookEnds, LookEndsWell};
ghost use Rattle.mail_session.specs.Mend.{MendEnds};
ghost use Rattle.mail_session.specs.Nodes.{NodesEnds};
ghost use Rattle.mail_session.specs.Scratch.{ScratchEnds};

use crate::compact::say_compacted;
use crate::decode::say_decoded;
use crate::exit::{Exit, Status};
use crate::files::{make, run_lines};
use crate::fill::say_filled;
use crate::info::say_info;
use crate::look::look_lines;
use crate::mend::say_mended;
use crate::nodes::say_nodes;
use crate::scratch::serve_memory;
use crate::words::{Asked, Form, read_words};
use pst_base::{Ledger, Steps};
use pst_outside::Outside;
use std::alloc::Global;

/// Does what was asked for.
fn answer<W: Outside>(alloc: Global, world: &mut W, asked: Asked) -> Status
    ensures { EndsFor asked world.old world.new (W.view world.old) (W.view world.new) result }
{
    match asked {
        Asked::Plain(Form::Info) => say_info(alloc, world),
        Asked::Plain(Form::Nodes) => say_nodes(alloc, world),
        Asked::Plain(Form::Run) => run_lines(alloc, world),
        Asked::Plain(Form::Look) => look_lines(alloc, world),
        Asked::Plain(Form::Decode) => say_decoded(alloc, world),
        Asked::Plain(Form::Compact) => say_compacted(alloc, world),
        Asked::Plain(Form::Mend) => say_mended(alloc, world),
        Asked::Plain(Form::Scratch) => serve_memory(alloc, world),
        Asked::Plain(Form::New | Form::Fill) | Asked::Nothing => Status::Words,
        Asked::Fill { seed, count } => say_filled(alloc, world, seed, count),
        Asked::New(name) => make(alloc, world, &name),
    }
}

/// Does what the words of the command line ask for, over a world, and answers how it ended. The words are those without the program's name.
///
/// Status 2 comes exactly where the words have none of the forms, and then nothing was asked of the world; where there is no memory to read the name of `new`, 7 may come in its place. The other statuses come as `CompactEnds`, `DecodeEnds`, `FillEnds`, `InfoEnds`, `LookEnds`, `MendEnds`, `NewEnds`, `NodesEnds`, `RunEnds` and `ScratchEnds` say.
pub fn run<W: Outside, L: Ledger>(
    alloc: Global,
    words: &[String],
    world: &mut W,
    steps: &mut Steps<L>,
) -> Exit
    ensures words { result.status ≡ 2 → form_of (spelled words.now) ≡ None }
    ensures no_words { form_of (spelled words.now) ≡ None → (result.status ≡ 2) ⊎ ((result.status ≡ 7) × (is_naming (spelled words.now) ≡ true)) }
    ensures untouched { form_of (spelled words.now) ≡ None → world.new ≡ world.old }
    // `info`: what is said is the text of the files' bytes, and its status theirs.
    ensures info { form_of (spelled words.now) ≡ Some Form.Info → EndsAs (InfoEnds (W.view world.old) (W.view world.new)) result.status }
    // `nodes`: what is said is the text of the one node map that the files lay, or of a refusal that holds of them.
    ensures nodes { form_of (spelled words.now) ≡ Some Form.Nodes → EndsAs (NodesEnds (W.view world.old) (W.view world.new)) result.status }
    // `run`: the replies are those of the tree that the files are read as, and a stop at any moment since the call's start leaves files that are read as the tree after some of them, among them each whose reply had begun.
    ensures run { form_of (spelled words.now) ≡ Some Form.Run → EndsAs (RunEnds (W.view world.old) (W.view world.new)) result.status }
    // Where the files are read as a tree and no device fails, it comes to its end: each reply is then that of the tree, or says that there was no memory, no room or no number.
    ensures complete { form_of (spelled words.now) ≡ Some Form.Run → EndsAs (EndsWell (W.view world.old) (W.view world.new)) result.status }
    // `look`: the replies are those of the tree that the files are read as, whatever its searches list and whether numbers are left or not, and the disk is as it was at every moment.
    ensures look { form_of (spelled words.now) ≡ Some Form.Look → EndsAs (LookEnds (W.view world.old) (W.view world.new)) result.status }
    // Where the files are read as a tree and no device fails, it comes to its end.
    ensures look_complete { form_of (spelled words.now) ≡ Some Form.Look → EndsAs (LookEndsWell (W.view world.old) (W.view world.new)) result.status }
    // `new`: what is made is read as the tree of a new store of that name.
    ensures new { (name : List ℕ) → form_of (spelled words.now) ≡ Some Form.New → third_name (spelled words.now) ≡ Some name → EndsAs (NewEnds name (W.view world.old) (W.view world.new)) result.status }
    // `decode`: what is said of the copy is that it was made, of the files with each data block decoded, and Main and Side are at every moment as they were.
    ensures decode { form_of (spelled words.now) ≡ Some Form.Decode → EndsAs (DecodeEnds (W.view world.old) (W.view world.new)) result.status }
    // `compact`: what is said of the copy is that it was made, without holes, of the nodes of the files, and that it is read as the tree that they are read as; Main and Side are at every moment as they were.
    ensures compact { form_of (spelled words.now) ≡ Some Form.Compact → EndsAs (CompactEnds (W.view world.old) (W.view world.new)) result.status }
    // `mend`: each stale list is made anew and each criteria object of the first version turned, of the tree that the files are read as whatever its searches list; a stop at any moment leaves files that are read as the tree with the first searches mended.
    ensures mend { form_of (spelled words.now) ≡ Some Form.Mend → EndsAs (MendEnds (W.view world.old) (W.view world.new)) result.status }
    // `fill`: the commands of a large input are carried out in turn over the tree that the files are read as, and a stop at any moment since the call's start leaves files that are read as the tree after some of them.
    ensures fill { (seed count : ℕ) → form_of (spelled words.now) ≡ Some Form.Fill → fill_numbers (spelled words.now) ≡ Some (seed, count) → EndsAs (FillEnds seed count (W.view world.old) (W.view world.new)) result.status }
    // `scratch`: the replies are those of a session over a new store in memory, whose running searches list what filtering lists.
    ensures scratch { form_of (spelled words.now) ≡ Some Form.Scratch → EndsAs (ScratchEnds (W.view world.old) (W.view world.new)) result.status }
    ensures no_memory { form_of (spelled words.now) ≡ Some Form.Scratch → result.status ≡ 7 → world.new ≡ world.old }
    ensures changed { (result.status ≡ 9) ↔ IsSome result.changed }
    ensures steps { steps.new ≡ steps.old }
{
    let _steps = steps;
    let Ok(asked) = read_words(alloc, words) else {
        return Status::Memory.exit();
    };
    answer(alloc, world, asked).exit()
}
