// Enquiring on areas of bytes: the fronts are read into numbers, and what an enquiry finds is written back; the answer is a number.
#![tactic(auto)]

ghost use Rattle.numbers.specs.Numbers.{numbers_of};
ghost use Rattle.model.specs.Day.{day_of};
ghost use Rattle.model.specs.Operations.{enquired};
ghost use Rattle.fronts.specs.Fronts.{lent_bytes};
ghost use Rattle.enquiries.specs.Enquired.{EnquiryBytes};

use model::{Lent, Request};

// An enquiry on bytes.
pub fn enquire_bytes(
    file: &[u8],
    notices: &[u8],
    graph: &[u8],
    work: &mut [u8],
    journey: &mut [u8],
    request: Request,
) -> u64
    ensures { EnquiryBytes
        (enquired (day_of file.now) (lent_bytes notices.now graph.now)
        (numbers_of work.old) (numbers_of journey.old) request.from request.to request.time)
        work.old journey.old result work.new journey.new }
{
    // The library has no heap; each array is lent by itself, so that a struct of them would be no plainer.
    let mut n = [0u16; model::NOTICES_LENGTH];
    let mut g = [0u16; model::MOST_GRAPH];
    let mut w = [0u16; timetable::MAX_CONNECTIONS];
    let mut j = [0u16; timetable::MAX_CONNECTIONS];
    let (notices, graph) = fronts::read_fronts(notices, graph, &mut n, &mut g);
    let (w, j) = fronts::read_fronts(work, journey, &mut w, &mut j);
    let answer = search::enquire(file, Lent { notices, graph }, w, j, request);
    written_enquiries::write_found(file, w, j, work, journey, answer);
    codes::code(answer)
}
