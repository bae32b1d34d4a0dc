// One call of a run, and its answer's two numbers.
#![tactic(auto)]

ghost use Rattle.std.specs.Prelude.{◌≡◌};
ghost use Rattle.model.specs.Operations.{outcome};
ghost use Rattle.model.specs.Day.{day_of, lent};
ghost use Rattle.model.specs.Runs.{called};
ghost use Rattle.refusals.specs.Answers.{told};
ghost use Rattle.run_steps.specs.Step.{call_of, answer_number, answer_value};

use model::Notice;
use refusals::Refusal;

// The first number of a posting. A run has a fixed format, in which it is kept and handed over: four numbers a call (0 for a posting with number,
// connection, delay; anything else for a withdrawal of the number), two an answer.
const POSTING: u16 = 0;

// One call: a notice posted, or the notice of its number withdrawn.
pub fn work_call(
    file: &[u8],
    notices: &mut [u16],
    graph: &mut [u16],
    kind: u16,
    notice: Notice,
) -> Result<u16, Refusal>
    ensures { outcome (told result) (lent notices.new graph.new)
        ≡ called (day_of file.now) (lent notices.old graph.old) (call_of kind notice.number notice.connection notice.delay) }
{
    match kind {
        POSTING => graph::post(file, notices, graph, notice),
        _ => graph::withdraw(file, notices, graph, notice.number),
    }
}

// The first number of an answer: 0, or the refusal's number.
pub fn number_of(noted: Result<u16, Refusal>) -> u16
    ensures { result ≡ answer_number (told noted) }
{
    match noted {
        Ok(_) => 0,
        Err(Refusal(reason, _)) => reason.number(),
    }
}

// The second number of an answer: the notice's number, or the refusal's place.
pub fn value_of(noted: Result<u16, Refusal>) -> u16
    ensures { result ≡ answer_value (told noted) }
{
    match noted {
        Ok(number) => number,
        Err(Refusal(_, place)) => place,
    }
}
