// A list of postings and withdrawals, worked one after the other.
#![tactic(auto)]

ghost use Rattle.model.specs.Day.{day_of, lent};
ghost use Rattle.model.specs.Runs.{ran};
ghost use Rattle.run_calls.specs.Calls.{calls_worked};
ghost use Rattle.run_calls.specs.Ended.{Ended};

use model::Notice;

// How many numbers a call has, and how many an answer: `call_width` and `answer_width`.
const CALL_WIDTH: usize = 4;

const ANSWER_WIDTH: usize = 2;

// The calls, one after the other; as many are worked as both slices hold. By index: `chunks_exact_mut` was tried, and left open which
// numbers the answers hold after the loop.
pub fn work_all(
    file: &[u8],
    notices: &mut [u16],
    graph: &mut [u16],
    calls: &[u16],
    answers: &mut [u16],
)
    ensures { Ended
        (ran (day_of file.now) (lent notices.old graph.old)
        (calls_worked calls.now answers.old))
        answers.old
        (lent notices.new graph.new)
        answers.new }
{
    let n = (calls.len() / CALL_WIDTH).min(answers.len() / ANSWER_WIDTH);
    for k in 0..n {
        let at = CALL_WIDTH * k;
        let kind = calls[at];
        let notice = Notice {
            number: calls[at + 1],
            connection: calls[at + 2],
            delay: calls[at + 3],
        };
        let noted = run_steps::work_call(file, notices, graph, kind, notice);
        let first = run_steps::number_of(noted);
        let second = run_steps::value_of(noted);
        answers[ANSWER_WIDTH * k] = first;
        answers[ANSWER_WIDTH * k + 1] = second;
    }
}
