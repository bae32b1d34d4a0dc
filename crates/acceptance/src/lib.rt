// The check of a timetable file: any byte slice is accepted with its counts, or refused with a number and a place.
#![tactic(auto)]

ghost use Rattle.std.specs.Prelude.{◌≡◌, ◌+◌, ◌*◌, ◌≤◌, length, IfOk};
ghost use Rattle.refusals.specs.Answers.{first_below, verdict_of, told};
ghost use Rattle.timetable.specs.File.{header_length, marked};
ghost use Rattle.timetable.specs.Refusals.{Past6};
ghost use Rattle.timetable.specs.Check.{max_stops, header_verdict, stop_verdict, body_verdict, file_verdict, checked_answer};

use refusals::{Reason, Refusal};
use timetable::{Counts, Fields, Timetable};

// The length of the longest file that is accepted.
pub const LONGEST_FILE: usize = timetable::HEADER_LENGTH
    + 2 * timetable::MAX_STOPS
    + timetable::CONNECTION_LENGTH * timetable::MAX_CONNECTIONS;

// Whether a file with a header starts with the letters TTG.
fn is_marked(file: &[u8]) -> bool
    requires { header_length ≤ length file.now }
    ensures { result ≡ marked file.now }
{
    matches!(file, [b'T', b'T', b'G', ..])
}

// Refusals 1 to 6.
fn header_verdict(file: &[u8]) -> Result<(), Refusal>
    ensures { verdict_of result ≡ header_verdict file.now }
{
    if file.len() < timetable::HEADER_LENGTH {
        return Err(Refusal(Reason::ShortFile, 0));
    }
    if !is_marked(file) {
        return Err(Refusal(Reason::WrongMark, 0));
    }
    if numbers::number_at(file, 3) != timetable::FORMAT_VERSION {
        return Err(Refusal(Reason::WrongVersion, 0));
    }
    let s = timetable::stops(file) as usize;
    if s < 1 {
        return Err(Refusal(Reason::WrongStopCount, 0));
    }
    if timetable::MAX_STOPS < s {
        return Err(Refusal(Reason::WrongStopCount, 0));
    }
    let n = timetable::connections(file) as usize;
    if timetable::MAX_CONNECTIONS < n {
        return Err(Refusal(Reason::WrongConnectionCount, 0));
    }
    if file.len() != timetable::HEADER_LENGTH + 2 * s + timetable::CONNECTION_LENGTH * n {
        return Err(Refusal(Reason::WrongLength, 0));
    }
    Ok(())
}

// Refusal 7 at the first n stops.
fn stops_verdict(fields: Fields, n: usize) -> Result<(), Refusal>
    requires { (header_length + 2 * n ≤ length fields.file.now) × (n ≤ max_stops) }
    ensures { verdict_of result ≡ first_below (stop_verdict fields.entry.file.now) n }
{
    for s in 0..n {
        if timetable::MAX_TRANSFER_TIME < fields.transfer_time(s) {
            return Err(Refusal(Reason::WrongTransferTime, s as u16));
        }
    }
    Ok(())
}

// Refusals 7 to 11 of a file whose header passes.
fn body_verdict(file: &[u8]) -> Result<(), Refusal>
    requires { Past6 file.now }
    ensures { verdict_of result ≡ body_verdict file.now }
{
    let stops = timetable::stops(file) as usize;
    let connections = timetable::connections(file) as usize;
    let fields = Fields {
        file,
        stops,
        connections,
    };
    stops_verdict(fields, stops)?;
    connections::connections_verdict(fields)
}

// Refusals 1 to 11.
fn file_verdict(file: &[u8]) -> Result<(), Refusal>
    ensures { verdict_of result ≡ file_verdict file.now }
{
    header_verdict(file)?;
    body_verdict(file)
}

// The check of a file: its counts, or the first refusal.
pub fn check(file: &[u8]) -> Result<Counts, Refusal>
    ensures { told result ≡ checked_answer file.now }
{
    file_verdict(file)?;
    Ok(Counts {
        stops: timetable::stops(file),
        connections: timetable::connections(file),
    })
}

// The timetable of an accepted file, or the first refusal.
pub fn open(file: &[u8]) -> Result<Timetable<'_>, Refusal>
    ensures verdict { verdict_of result ≡ file_verdict file.now }
    ensures of_the_file { IfOk result (λ timetable. timetable.file.now ≡ file.now) }
{
    let counts = check(file)?;
    Ok(Timetable {
        file,
        stops: counts.stops as usize,
        connections: counts.connections as usize,
    })
}
