// What an enquiry found, written back to areas of bytes: the predecessors and the journey.
#![tactic(auto)]

ghost use Rattle.std.specs.Prelude.{◌≡◌, true, false, take, MatchOption};
ghost use Rattle.timetable.specs.File.{connections};
ghost use Rattle.refusals.specs.Answers.{told};
ghost use Rattle.fronts.specs.Fronts.{writes, WrittenBoth};
ghost use Rattle.written_enquiries.specs.Found.{is_searched, journey_length, FoundRoom};

use model::Arrival;
use refusals::{Reason, Refusal};

// How many connections the journey has that an enquiry found, 0 where it searched and found none.
fn found_length(answer: Result<Arrival, Refusal>) -> Option<usize>
    ensures { MatchOption result (is_searched (told answer) ≡ false)
        (λ n. (is_searched (told answer) ≡ true) × (n ≡ journey_length (told answer))) }
{
    match answer {
        Ok(arrival) => Some(arrival.connections as usize),
        Err(Refusal(Reason::Unreachable, _)) => Some(0),
        Err(_) => None,
    }
}

// What an enquiry found written back: the predecessors and the journey; nothing where it was refused before the search.
pub fn write_found(
    file: &[u8],
    w: &[u16],
    j: &[u16],
    work: &mut [u8],
    journey: &mut [u8],
    answer: Result<Arrival, Refusal>,
)
    requires { is_searched (told answer) ≡ true → FoundRoom file.now w.now j.now (told answer) }
    ensures { WrittenBoth
        (take (writes (is_searched (told answer)) (connections file.now)) w.now)
        (take (journey_length (told answer)) j.now)
        work.old journey.old work.new journey.new }
{
    if let Some(length) = found_length(answer) {
        let n = timetable::connections(file) as usize;
        fronts::write_both(&w[..n], &j[..length], work, journey);
    }
}
