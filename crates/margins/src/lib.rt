// The margin of a change: by how many minutes it is made or missed.
#![tactic(auto)]

ghost use Rattle.std.specs.Prelude.{◌≡◌, [], ℕ, ◌<◌};
ghost use Rattle.graph.specs.Answers.{answering, told, verdict_of};
ghost use Rattle.model.specs.Margin.{margin_between, margin_of};
ghost use Rattle.model.specs.Day.{day_of, lent};
ghost use Rattle.model.specs.Parts.{asked_verdict, margin_asks};
ghost use Rattle.model.specs.Shown.{shown};
ghost use Rattle.margins.specs.Margin.{MarginAnswered};

use graph::{Network, Reason, Refusal, Shown};
use model::{Change, Lent};
use timetable::Timetable;

// Refusals 13 and 17.
#[tactic(auto, using(crate::proofs::Asked::change_unknown, crate::proofs::Asked::change_apart, crate::proofs::Asked::change_passes))]
fn change_verdict(timetable: Timetable, change: Change) -> Result<(), Refusal>
    ensures { verdict_of result ≡ asked_verdict [] (margin_asks timetable.entry.file.now change.connection change.next) }
{
    let Change { connection, next } = change;
    if timetable.connections <= connection as usize {
        return Err(Refusal(Reason::UnknownConnection, 0));
    }
    if timetable.connections <= next as usize {
        return Err(Refusal(Reason::UnknownConnection, 0));
    }
    if timetable.to(connection as usize) != timetable.from(next as usize) {
        return Err(Refusal(Reason::NotJoined, 0));
    }
    Ok(())
}

// Departure minus arrival minus transfer time.
#[tactic(auto, using(crate::proofs::Signed::diff_fits, crate::proofs::Signed::diff2_fits, crate::proofs::Signed::diff2_is))]
fn minutes(departure: u16, arrival: u16, transfer: u16) -> i32
    ensures { result ≡ margin_between departure arrival transfer }
{
    departure as i32 - arrival as i32 - transfer as i32
}

// The minutes of a change between two connections.
#[tactic(auto, using(crate::proofs::Signed::read_back, crate::proofs::Margins::margin_read))]
fn change_minutes(network: Network, change: Change) -> i32
    requires { (change.connection < network.shown.timetable.connections) × (change.next < network.shown.timetable.connections) }
    ensures { result ≡ margin_of (shown network.entry.shown.timetable.file.now network.entry.shown.graph.now) change.connection change.next }
{
    let c = change.connection as usize;
    let stop = network.shown.timetable.to(c);
    let transfer = network.shown.timetable.transfer_time(stop as usize);
    let departure = network.shown.departure(change.next as usize);
    let arrival = network.shown.arrival(c);
    minutes(departure, arrival, transfer)
}

// The margin of a change, once the timetable and both areas have passed.
#[tactic(auto, using(crate::proofs::Signed::read_back, crate::proofs::Asked::change_passed))]
fn margin_by(network: Network, change: Change) -> Result<i32, Refusal>
    ensures { told result
        ≡ answering (asked_verdict [] (margin_asks network.entry.shown.timetable.file.now change.connection change.next))
        (margin_of (shown network.entry.shown.timetable.file.now network.entry.shown.graph.now) change.connection change.next) }
{
    change_verdict(network.shown.timetable, change)?;
    Ok(change_minutes(network, change))
}

// The margin of a change.
pub fn margin(file: &[u8], areas: Lent, change: Change) -> Result<i32, Refusal>
    ensures { MarginAnswered (day_of file.now) (lent areas.entry.notices.now areas.entry.graph.now) change.connection change.next
        (told result) }
{
    // no `?`: document 01 has the file check's answer opened by `let .. else`
    let examined = graph::examine(file, areas);
    let Ok(timetable) = examined else {
        return Err(examined.unwrap_err());
    };
    let shown = Shown {
        timetable,
        graph: areas.graph,
    };
    margin_by(Network { shown }, change)
}
