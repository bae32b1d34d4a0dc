// The search layer's operations: the journey that arrives first and, passed on, the margin of a change.
#![tactic(auto)]

ghost use Rattle.std.specs.Prelude.{◌≡◌, ℕ, ◌<◌, ◌≤◌, length};
ghost use Rattle.graph.specs.Answers.{told, Passed};
ghost use Rattle.model.specs.Day.{day_of, lent};
ghost use Rattle.model.specs.Operations.{enquiry, searched, enquired};
ghost use Rattle.model.specs.Shown.{shown};
ghost use Rattle.search.specs.Answered.{Answered};

use graph::{Network, Refusal, Shown};
use model::{Arrival, Lent, Request};
use predecessors::Search;
use timetable::Timetable;

// The margin of a change.
pub use margins::margin;

// The journey, once all checks have passed: the departures are sorted, and the predecessors are filled in that order.
fn find_journey(
    network: Network,
    work: &mut [u16],
    journey: &mut [u16],
    request: Request,
) -> Result<Arrival, Refusal>
    requires { (network.shown.timetable.connections ≤ length work.old) × (network.shown.timetable.connections ≤ length journey.old) }
    ensures { enquiry (told result) work.new journey.new
        ≡ searched Passed (shown network.entry.shown.timetable.file.now network.entry.shown.graph.now) request.from request.to request.time work.old journey.old }
{
    // The library has no heap.
    let mut order = [model::NONE; timetable::MAX_CONNECTIONS];
    graph::order_departures(
        network.shown.graph,
        network.shown.timetable.connections,
        &mut order,
    );
    let search = Search {
        network,
        from: request.from,
        time: request.time,
    };
    predecessors::fill_predecessors(search, &order, work);
    journeys::read_journey(network, work, journey, request)
}

// The enquiry in an accepted timetable.
fn enquire_by(
    timetable: Timetable,
    areas: Lent,
    work: &mut [u16],
    journey: &mut [u16],
    request: Request,
) -> Result<Arrival, Refusal>
    ensures { enquiry (told result) work.new journey.new
        ≡ enquired (day_of timetable.entry.file.now) (lent areas.entry.notices.now areas.entry.graph.now)
        work.old journey.old request.from request.to request.time }
{
    requests::lent_verdict(timetable, areas, work, journey)?;
    requests::request_verdict(timetable.stops, request)?;
    let shown = Shown {
        timetable,
        graph: areas.graph,
    };
    find_journey(Network { shown }, work, journey, request)
}

// The journey that arrives first, and the predecessor of each connection.
pub fn enquire(
    file: &[u8],
    areas: Lent,
    work: &mut [u16],
    journey: &mut [u16],
    request: Request,
) -> Result<Arrival, Refusal>
    ensures { Answered (day_of file.now) (lent areas.entry.notices.now areas.entry.graph.now)
        work.old journey.old request.from request.to request.time
        (told result) work.new journey.new }
{
    // no `?`: document 01 has the file check's answer opened by `let .. else`
    let opened = graph::open(file);
    let Ok(timetable) = opened else {
        return Err(opened.unwrap_err());
    };
    enquire_by(timetable, areas, work, journey, request)
}
