// The connections of a timetable file, each one tested alone and against the one before it: refusals 8 to 11.
#![tactic(auto)]

ghost use Rattle.std.specs.Prelude.{◌≡◌, ◌<◌, ◌≤◌};
ghost use Rattle.refusals.specs.Answers.{is_passed, first_below, verdict_of};
ghost use Rattle.timetable.specs.Check.{max_connections, connection_verdict};
ghost use Rattle.successions.specs.Next.{ComesAfter};

use refusals::{Reason, Refusal};
use timetable::Fields;

// Refusals 8 to 11 at connection c.
fn connection_verdict(fields: Fields, c: usize) -> Result<(), Refusal>
    requires { (c < fields.connections) × (c < max_connections) }
    ensures { verdict_of result ≡ connection_verdict fields.entry.file.now c }
{
    if connection_tests::wrong_stops(fields, c) {
        return Err(Refusal(Reason::WrongStops, c as u16));
    }
    if connection_tests::wrong_trip(fields, c) {
        return Err(Refusal(Reason::WrongTrip, c as u16));
    }
    if connection_tests::wrong_times(fields, c) {
        return Err(Refusal(Reason::WrongTimes, c as u16));
    }
    if connection_tests::wrong_join(fields, c) {
        return Err(Refusal(Reason::WrongJoin, c as u16));
    }
    Ok(())
}

// Whether connection c, which is not the first, passes.
fn connection_passes(fields: Fields, c: usize) -> bool
    requires { ComesAfter fields.file.now c × (c < fields.connections) }
    ensures { result ≡ is_passed (connection_verdict fields.entry.file.now c) }
{
    if connection_tests::wrong_stops(fields, c) {
        return false;
    }
    if connection_tests::wrong_times(fields, c) {
        return false;
    }
    successions::follows(fields, c)
}

// Whether all connections pass.
fn connections_pass(fields: Fields) -> bool
    requires { fields.connections ≤ max_connections }
    ensures { result ≡ is_passed (first_below (connection_verdict fields.entry.file.now) fields.entry.connections) }
{
    if fields.connections == 0 {
        return true;
    }
    if connection_verdict(fields, 0).is_err() {
        return false;
    }
    for c in 1..fields.connections {
        if !connection_passes(fields, c) {
            return false;
        }
    }
    true
}

// Refusals 8 to 11 at the connections, one after the other. The place is looked for only where not all pass.
pub fn connections_verdict(fields: Fields) -> Result<(), Refusal>
    requires { fields.connections ≤ max_connections }
    ensures { verdict_of result
        ≡ first_below (connection_verdict fields.entry.file.now) fields.entry.connections }
{
    if connections_pass(fields) {
        return Ok(());
    }
    for c in 0..fields.connections {
        connection_verdict(fields, c)?;
    }
    Ok(())
}
