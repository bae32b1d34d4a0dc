// What an enquiry asks of the areas that it is lent and of its own numbers.
#![tactic(auto)]

ghost use Rattle.std.specs.Prelude.{◌≡◌, []};
ghost use Rattle.graph.specs.Answers.{verdict_of};
ghost use Rattle.model.specs.Day.{day_of, lent};
ghost use Rattle.model.specs.Parts.{asked_verdict, enquiry_asks};
ghost use Rattle.requests.specs.Lent.{room_for, lent_verdict};

use graph::{Reason, Refusal};
use model::{Lent, Request};
use timetable::Timetable;

// Refusals 21, 22, 28 and 29.
fn room_verdict(
    timetable: Timetable,
    areas: Lent,
    work: &[u16],
    journey: &[u16],
) -> Result<(), Refusal>
    ensures { verdict_of result ≡ room_for (day_of timetable.entry.file.now) (lent areas.entry.notices.now areas.entry.graph.now)
        work.now journey.now }
{
    graph::room_verdict(timetable, areas)?;
    let n = timetable.connections;
    if work.len() < n {
        return Err(Refusal(Reason::ShortWork, 0));
    }
    if journey.len() < n {
        return Err(Refusal(Reason::ShortJourney, 0));
    }
    Ok(())
}

// Refusals 21, 22, 28, 29, 23 and 24.
#[tactic(auto, using(crate::proofs::Room::room_passed))]
pub fn lent_verdict(
    timetable: Timetable,
    areas: Lent,
    work: &[u16],
    journey: &[u16],
) -> Result<(), Refusal>
    ensures { verdict_of result ≡ lent_verdict (day_of timetable.entry.file.now) (lent areas.entry.notices.now areas.entry.graph.now)
        work.now journey.now }
{
    room_verdict(timetable, areas, work, journey)?;
    graph::contents_verdict(timetable, areas)
}

// Refusals 15 and 16.
#[tactic(auto, using(crate::proofs::Asked::request_unknown, crate::proofs::Asked::request_late, crate::proofs::Asked::request_passes))]
pub fn request_verdict(stops: usize, request: Request) -> Result<(), Refusal>
    ensures { verdict_of result ≡ asked_verdict [] (enquiry_asks stops request.from request.to request.time) }
{
    if stops <= request.from as usize {
        return Err(Refusal(Reason::UnknownStop, 0));
    }
    if stops <= request.to as usize {
        return Err(Refusal(Reason::UnknownStop, 0));
    }
    if model::LAST_EXPECTED < request.time {
        return Err(Refusal(Reason::TooLate, 0));
    }
    Ok(())
}
