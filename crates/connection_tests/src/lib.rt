// A connection of a timetable file tested alone and against the one before it, test by test: refusals 8 to 11.
#![tactic(auto)]

ghost use Rattle.std.specs.Prelude.{◌≡◌, ◌-◌, ◌<◌};
ghost use Rattle.timetable.specs.Check.{wrong_stops, wrong_trip, wrong_times, breaks_off, wrong_join};

use timetable::Fields;

// Whether connection c starts or ends at no stop, or ends where it starts (refusal 8).
pub fn wrong_stops(fields: Fields, c: usize) -> bool
    requires { c < fields.connections }
    ensures { result ≡ wrong_stops fields.entry.file.now c }
{
    let start = fields.from(c);
    let end = fields.to(c);
    let stops = fields.stops;
    if stops <= start as usize {
        return true;
    }
    if stops <= end as usize {
        return true;
    }
    start == end
}

// Whether the trip of connection c is neither that of the connection before it nor one more; of the first, whether it is not 0 (refusal 9).
pub fn wrong_trip(fields: Fields, c: usize) -> bool
    requires { c < fields.connections }
    ensures { result ≡ wrong_trip fields.entry.file.now c }
{
    let own = fields.trip(c);
    if c == 0 {
        return own != 0;
    }
    let before = fields.trip(c - 1);
    if own < before {
        return true;
    }
    1 < own - before
}

// Whether connection c does not arrive after it departs, or arrives after the timetable's end (refusal 10).
pub fn wrong_times(fields: Fields, c: usize) -> bool
    requires { c < fields.connections }
    ensures { result ≡ wrong_times fields.entry.file.now c }
{
    let departure = fields.scheduled_departure(c);
    let arrival = fields.scheduled_arrival(c);
    if arrival <= departure {
        return true;
    }
    timetable::LAST_SCHEDULED < arrival
}

// Whether connection c starts elsewhere or earlier than the one before it arrives.
fn breaks_off(fields: Fields, c: usize) -> bool
    requires { (0 < c) × (c < fields.connections) }
    ensures { result ≡ breaks_off fields.entry.file.now (c - 1) c }
{
    if fields.from(c) != fields.to(c - 1) {
        return true;
    }
    fields.scheduled_departure(c) < fields.scheduled_arrival(c - 1)
}

// Whether connection c is of the same trip as the one before it and starts elsewhere or earlier than that arrives (refusal 11).
pub fn wrong_join(fields: Fields, c: usize) -> bool
    requires { c < fields.connections }
    ensures { result ≡ wrong_join fields.entry.file.now c }
{
    if fields.stays_aboard(c) {
        return breaks_off(fields, c);
    }
    false
}
