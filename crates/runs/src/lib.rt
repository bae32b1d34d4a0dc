// Whole runs: building, then a list of postings and withdrawals.
#![tactic(auto)]

ghost use Rattle.refusals.specs.Answers.{told};
ghost use Rattle.model.specs.Day.{day_of, lent};
ghost use Rattle.runs.specs.Whole.{Whole};

use refusals::Refusal;
use timetable::Counts;

// Building, then a list of postings and withdrawals, each worked by the library's own `post` and `withdraw` on both areas as
// the call before left them. A run has a fixed format, in which it is kept and handed over: a call is four numbers (0 for a posting
// with number, connection, delay; anything else for a withdrawal of the number), an answer two (the refusal's number and place, or 0
// and the notice's number); as many calls are worked as both slices hold. The building's answer is the result; where it is refused,
// no call is worked.
pub fn run(
    file: &[u8],
    notices: &mut [u16],
    graph: &mut [u16],
    calls: &[u16],
    answers: &mut [u16],
) -> Result<Counts, Refusal>
    ensures { Whole (day_of file.now) (lent notices.old graph.old)
        calls.now answers.old
        (told result)
        (lent notices.new graph.new)
        answers.new }
{
    let counts = graph::build(file, notices, graph)?;
    run_calls::work_all(file, notices, graph, calls, answers);
    Ok(counts)
}
