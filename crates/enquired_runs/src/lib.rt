// A whole run, and then an enquiry.
#![tactic(auto)]

ghost use Rattle.refusals.specs.Answers.{told};
ghost use Rattle.model.specs.Day.{day_of, lent};
ghost use Rattle.model.specs.Operations.{enquiry};
ghost use Rattle.enquired_runs.specs.Enquiring.{Enquiring};

use model::{Arrival, Lent, Request};
use refusals::Refusal;
use timetable::Counts;

// The answers of a building, and of an enquiry after the run.
#[derive(Clone, Copy)]
pub struct Told {
    pub building: Result<Counts, Refusal>,
    pub enquiry: Result<Arrival, Refusal>,
}

// A whole run, and then an enquiry by the library's own `enquire` on both areas as the run left them; also where the building is
// refused.
pub fn run_and_enquire(
    file: &[u8],
    notices: &mut [u16],
    graph: &mut [u16],
    calls: &[u16],
    answers: &mut [u16],
    work: &mut [u16],
    journey: &mut [u16],
    request: Request,
) -> Told
    ensures { Enquiring (day_of file.now) (lent notices.old graph.old)
        calls.now answers.old work.old journey.old request.from request.to request.time
        (told result.building)
        (lent notices.new graph.new)
        answers.new
        (enquiry (told result.enquiry) work.new journey.new) }
{
    let building = runs::run(file, notices, graph, calls, answers);
    let enquiry = search::enquire(file, Lent { notices, graph }, work, journey, request);
    Told { building, enquiry }
}
