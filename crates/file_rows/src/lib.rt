// The rows of stop_times.txt that a timetable file holds, connection by connection.
#![tactic(auto)]

ghost use Rattle.std.specs.Prelude.{◌≡◌, ◌<◌};
ghost use Rattle.gtfs.specs.Rows.{position, leaves_again, start_row, end_row};
ghost use Rattle.file_rows.specs.Positions.{last_position};

use gtfs::StopTime;
use timetable::Timetable;

// The row of a trip's first stop, before its first connection c.
pub fn start_row(timetable: Timetable, c: usize) -> StopTime
    requires { c < timetable.connections }
    ensures { result ≡ start_row timetable.entry.file.now c }
{
    let departure = timetable.scheduled_departure(c);
    StopTime {
        trip: timetable.trip(c),
        arrival: departure,
        departure,
        stop: timetable.from(c),
        sequence: 0,
    }
}

// When the trip goes on from the stop that connection c goes to, or at its last stop the arrival there.
fn leaves_again(timetable: Timetable, c: usize) -> u16
    requires { c < timetable.connections }
    ensures { result ≡ leaves_again timetable.entry.file.now c }
{
    let next = c + 1;
    if next < timetable.connections && timetable.stays_aboard(next) {
        return timetable.scheduled_departure(next);
    }
    timetable.scheduled_arrival(c)
}

// The row of the stop that connection c goes to, where so many connections of its trip stand before it.
#[tactic(auto, using(gtfs::proofs::Rows::position_low))]
pub fn end_row(timetable: Timetable, c: usize, before: u16) -> StopTime
    requires { (c < timetable.connections) × (before ≡ position timetable.file.now c) }
    ensures { result ≡ end_row timetable.entry.file.now c }
{
    let departure = leaves_again(timetable, c);
    StopTime {
        trip: timetable.trip(c),
        arrival: timetable.scheduled_arrival(c),
        departure,
        stop: timetable.to(c),
        sequence: before + 1,
    }
}

// How many connections of its trip stand before connection c, where so many stand before the one before it.
#[tactic(auto, using(crate::proofs::Positions::turns))]
pub fn next_position(timetable: Timetable, c: usize, last: u16) -> u16
    requires { (c < timetable.connections) × (last ≡ last_position timetable.file.now c) }
    ensures { result ≡ position timetable.entry.file.now c }
{
    if timetable.stays_aboard(c) {
        last + 1
    } else {
        0
    }
}
