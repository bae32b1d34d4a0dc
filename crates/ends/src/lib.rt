// The two ends of the dialogue: the first answer, to the timetable, and the last, to a line that no newline ends. No input and no output.
#![tactic(auto)]

ghost use Rattle.std.specs.Prelude.{◌≡◌, true, List, ℕ, ◌≤◌, length};
ghost use Rattle.model.specs.Day.{Day, day_of, lent};
ghost use Rattle.model.specs.Operations.{built};
ghost use Rattle.commands.specs.Commands.{command_of};
ghost use Rattle.input.specs.Lines.{plain};
ghost use Rattle.labels.specs.Room.{line_room};
ghost use Rattle.turns.specs.Turns.{State, turn_of};
ghost use Rattle.turns.specs.Worked.{Worked};
ghost use Rattle.ends.specs.Built.{Built};

use refusals::{Reason, Refusal};

// Builds; the length of the answer's line, which stands at the front of out, an accepted timetable's apart from a refused one's.
pub fn begin(
    file: &[u8],
    notices: &mut [u16],
    graph: &mut [u16],
    out: &mut [u8],
) -> Result<usize, usize>
    requires { line_room ≤ length out.old }
    ensures { Built result out.new out.old (lent notices.new graph.new)
        (built (day_of file.now) (lent notices.old graph.old)) }
{
    let built = graph::build(file, notices, graph);
    let size = written_replies::write_built(built, out);
    match built {
        Ok(_) => Ok(size),
        Err(_) => Err(size),
    }
}

// Works a line that no newline ends, whatever it holds and whatever the desk has; the length of the answer, which stands at the front of
// out.
pub fn work_unended(out: &mut [u8]) -> usize
    requires { line_room ≤ length out.old }
    ensures { (day : Day) (s : State) (line : List ℕ) → plain line ≡ true
        → Worked result out.new out.old s (turn_of day s (command_of line)) }
{
    written_replies::write_refusal(Refusal(Reason::Unreadable, 0), out)
}
