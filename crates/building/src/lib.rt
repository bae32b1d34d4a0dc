// Building: an empty notice area and the graph without notices.
#![tactic(auto)]

ghost use Rattle.std.specs.Prelude.{◌≡◌, []};
ghost use Rattle.refusals.specs.Answers.{told, Passed};
ghost use Rattle.model.specs.Day.{day_of, lent};
ghost use Rattle.model.specs.Parts.{room_verdict};
ghost use Rattle.model.specs.Operations.{outcome, written, built};

use model::Lent;
use refusals::Refusal;
use times::Outlook;
use timetable::{Counts, Timetable};

// No notice stands, and the graph says so.
fn clear_all(timetable: Timetable, notices: &mut [u16], graph: &mut [u16])
    requires { room_verdict (day_of timetable.file.now) (lent notices.old graph.old) ≡ Passed }
    ensures { lent notices.new graph.new
        ≡ written (day_of timetable.entry.file.now) (lent notices.old graph.old) [] }
{
    notices::clear_rows(notices);
    drawing::fill_graph(Outlook { timetable, notices }, graph);
}

// An empty notice area and the graph without notices.
pub fn build(file: &[u8], notices: &mut [u16], graph: &mut [u16]) -> Result<Counts, Refusal>
    ensures { outcome (told result) (lent notices.new graph.new)
        ≡ built (day_of file.now) (lent notices.old graph.old) }
{
    // no `?`: document 01 has the file check's answer opened by `let .. else`
    let opened = acceptance::open(file);
    let Ok(timetable) = opened else {
        return Err(opened.unwrap_err());
    };
    checks::room_verdict(timetable, Lent { notices, graph })?;
    clear_all(timetable, notices, graph);
    Ok(Counts {
        stops: timetable.stops as u16,
        connections: timetable.connections as u16,
    })
}
