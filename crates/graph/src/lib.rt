// The graph layer: it checks, builds and updates the graph and the notices. What the search needs of it, it offers here: the checks
// of handed-in areas, the readers of the graph area's entries, the order of departures and what a refusal is.
#![tactic(auto)]

ghost use Rattle.std.specs.Prelude.{◌≡◌, ℕ};
ghost use Rattle.refusals.specs.Answers.{told, Passed};
ghost use Rattle.model.specs.Notices.{rows_of};
ghost use Rattle.model.specs.Day.{day_of, lent};
ghost use Rattle.model.specs.Parts.{asked_verdict, room_verdict};
ghost use Rattle.model.specs.Operations.{outcome, written, built, posted, withdrawn};
ghost use Rattle.model.specs.Ready.{Ready};
ghost use Rattle.model.specs.Shown.{Drawn};
ghost use Rattle.calls.specs.Call.{asks_of, standing_after, called_by};

use calls::Call;
use model::{Lent, Notice};
use notices::Posted;
use times::Outlook;
use timetable::Timetable;

// The check of a file, building, and why a connection is late.
pub use acceptance::{check, open};
pub use building::build;
pub use causes::why;

// The checks of both areas, alone and after the file's.
pub use checks::{contents_verdict, examine, room_verdict};

// What a timetable and a graph area show.
pub use boards::Shown;

// The entries of the graph area.
pub use entries::{arrival, departure, transfer, waiting};

// The connections in the order of departure.
pub use departures::order_departures;

// Why something is refused. What a refusal tells, specs/ passes on.
pub use refusals::{Reason, Refusal};

// What the search goes over: a timetable and a graph area that has the departure lists of the times that it shows.
#[derive(Clone, Copy)]
pub struct Network<'a> {
    pub shown: Shown<'a>,
    ghost drawn: { Drawn shown.timetable.file.now shown.graph.now },
}

// A call worked in an accepted timetable whose areas are right: the notice, and the graph with it.
fn work_call(timetable: Timetable, notices: &mut [u16], graph: &mut [u16], call: Call)
    requires ready { Ready (day_of timetable.file.now) (lent notices.old graph.old) }
    requires call_value { asked_verdict (rows_of notices.old) (asks_of timetable.connections call) ≡ Passed }
    ensures { lent notices.new graph.new
        ≡ written (day_of timetable.entry.file.now) (lent notices.old graph.old)
        (standing_after call (rows_of notices.old)) }
{
    calls::note_call(notices, timetable.connections, call);
    drawing::fill_graph(Outlook { timetable, notices }, graph);
}

// A call: the notices that stand, and the graph with them. `post` and `withdraw` give it a call each, by the name of the operation.
fn update(file: &[u8], notices: &mut [u16], graph: &mut [u16], call: Call) -> Result<u16, Refusal>
    ensures { outcome (told result) (lent notices.new graph.new)
        ≡ called_by (day_of file.now) (lent notices.old graph.old) call }
{
    // no `?`: document 01 has the file check's answer opened by `let .. else`
    let examined = examine(file, Lent { notices, graph });
    let Ok(timetable) = examined else {
        return Err(examined.unwrap_err());
    };
    calls::call_verdict(Posted { notices }, timetable.connections, call)?;
    work_call(timetable, notices, graph, call);
    Ok(calls::number_of(call))
}

// A notice posted.
pub fn post(
    file: &[u8],
    notices: &mut [u16],
    graph: &mut [u16],
    notice: Notice,
) -> Result<u16, Refusal>
    ensures { outcome (told result) (lent notices.new graph.new)
        ≡ posted (day_of file.now) (lent notices.old graph.old) notice.number notice.connection notice.delay }
{
    update(file, notices, graph, Call::Post(notice))
}

// A notice withdrawn.
pub fn withdraw(
    file: &[u8],
    notices: &mut [u16],
    graph: &mut [u16],
    number: u16,
) -> Result<u16, Refusal>
    ensures { outcome (told result) (lent notices.new graph.new)
        ≡ withdrawn (day_of file.now) (lent notices.old graph.old) number }
{
    update(file, notices, graph, Call::Withdraw(number))
}
