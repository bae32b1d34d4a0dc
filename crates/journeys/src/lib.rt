// The journey of an enquiry, read out of its predecessors: its last connection, and from there all of them.
#![tactic(auto)]

ghost use Rattle.std.specs.Prelude.{◌≡◌, ◌&&◌, ◌+◌, ◌<◌, ◌≤◌, eqb, length, take, MatchOption};
ghost use Rattle.timetable.specs.File.{to};
ghost use Rattle.model.specs.Least.{none};
ghost use Rattle.model.specs.Predecessors.{predecessors, reached_in, last_to};
ghost use Rattle.model.specs.Operations.{enquiry};
ghost use Rattle.model.specs.Shown.{shown};
ghost use Rattle.journeys.specs.Last.{Better};
ghost use Rattle.journeys.specs.Reading.{read_out};
ghost use Rattle.graph.specs.Answers.{told};

use graph::{Network, Reason, Refusal};
use model::{Arrival, NONE, Request};
use timetable::Timetable;

// Whether a journey ends with connection c and c arrives at a stop.
fn arrives_at(timetable: Timetable, predecessors: &[u16], c: usize, stop: u16) -> bool
    requires { (c < length predecessors.now) × (c < timetable.connections) }
    ensures { result ≡ (reached_in predecessors.now c && eqb (to timetable.entry.file.now c) stop) }
{
    if predecessors[c] >= NONE {
        return false;
    }
    timetable.to(c) == stop
}

// One turn of the search for the last connection: the better of the best so far and c.
#[tactic(auto, using(crate::proofs::Last::turn_fails, crate::proofs::Last::turn_first, crate::proofs::Last::turn_wins))]
fn better(
    network: Network,
    predecessors: &[u16],
    best: Option<u16>,
    c: usize,
    stop: u16,
) -> Option<u16>
    requires long { length predecessors.now ≡ network.shown.timetable.connections }
    requires exists { c < network.shown.timetable.connections }
    requires best_value { Better (shown network.shown.timetable.file.now network.shown.graph.now) predecessors.now stop c best }
    ensures { Better (shown network.entry.shown.timetable.file.now network.entry.shown.graph.now) predecessors.now stop (c + 1) result }
{
    if !arrives_at(network.shown.timetable, predecessors, c, stop) {
        return best;
    }
    let Some(r) = best else {
        return Some(c as u16);
    };
    if network.shown.arrival(c) < network.shown.arrival(r as usize) {
        return Some(c as u16);
    }
    best
}

// The last connection of the journey to a stop.
// A loop: `filter_map` and `min`, over arrival and number as one number, were tried and proved, and cost 3.5 instructions more for each
// connection, 2.4 in a hundred of an enquiry at 2,000.
#[tactic(auto, using(crate::proofs::Last::search_done))]
fn find_last(network: Network, predecessors: &[u16], stop: u16) -> Option<u16>
    requires { length predecessors.now ≡ network.shown.timetable.connections }
    ensures { MatchOption result
        (last_to (shown network.entry.shown.timetable.file.now network.entry.shown.graph.now) predecessors.now stop ≡ none)
        (λ r. (r < none) × (r ≡ last_to (shown network.entry.shown.timetable.file.now network.entry.shown.graph.now) predecessors.now stop)) }
{
    let mut best = None;
    for c in 0..predecessors.len() {
        best = better(network, predecessors, best, c, stop);
    }
    best
}

// The journey that a request asks for, read out of its predecessors: its connections in the order of travel to the front of
// `journey`, or refusal 30.
pub fn read_journey(
    network: Network,
    work: &[u16],
    journey: &mut [u16],
    request: Request,
) -> Result<Arrival, Refusal>
    requires journey_room { network.shown.timetable.connections ≤ length journey.old }
    requires work_value { take network.shown.timetable.connections work.now
        ≡ predecessors (shown network.shown.timetable.file.now network.shown.graph.now) request.from request.time }
    ensures { enquiry (told result) work.now journey.new
        ≡ read_out (shown network.entry.shown.timetable.file.now network.entry.shown.graph.now) work.now journey.old request.from request.to request.time }
{
    if request.from == request.to {
        return Ok(Arrival {
            time: request.time,
            connections: 0,
        });
    }
    let predecessors = &work[..network.shown.timetable.connections];
    let Some(last) = find_last(network, predecessors, request.to) else {
        return Err(Refusal(Reason::Unreachable, 0));
    };
    let count = trails::write_journey(predecessors, journey, last);
    Ok(Arrival {
        time: network.shown.arrival(last as usize),
        connections: count as u16,
    })
}
