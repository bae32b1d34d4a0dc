// The refusals of both areas, 21 to 24, and a timetable whose areas pass.
#![tactic(auto)]

ghost use Rattle.std.specs.Prelude.{◌≡◌, IfOk};
ghost use Rattle.refusals.specs.Answers.{verdict_of, Passed};
ghost use Rattle.model.specs.Day.{day_of, lent};
ghost use Rattle.model.specs.Parts.{room_verdict, contents_verdict, areas_verdict, open_verdict, examined};
ghost use Rattle.checks.specs.Examined.{told_counts};

use model::Lent;
use refusals::{Reason, Refusal};
use times::Outlook;
use timetable::Timetable;

// Refusals 21 and 22.
pub fn room_verdict(timetable: Timetable, areas: Lent) -> Result<(), Refusal>
    ensures { verdict_of result
        ≡ room_verdict (day_of timetable.entry.file.now) (lent areas.entry.notices.now areas.entry.graph.now) }
{
    if areas.notices.len() < model::NOTICES_LENGTH {
        return Err(Refusal(Reason::ShortNotices, 0));
    }
    let s = timetable.stops;
    let n = timetable.connections;
    if areas.graph.len() < 4 * n + s {
        return Err(Refusal(Reason::ShortGraph, 0));
    }
    Ok(())
}

// Refusals 23 and 24.
pub fn contents_verdict(timetable: Timetable, areas: Lent) -> Result<(), Refusal>
    requires { room_verdict (day_of timetable.file.now) (lent areas.notices.now areas.graph.now) ≡ Passed }
    ensures { verdict_of result
        ≡ contents_verdict (day_of timetable.entry.file.now) (lent areas.entry.notices.now areas.entry.graph.now) }
{
    rows::check_rows(areas.notices, timetable.connections)?;
    let outlook = Outlook {
        timetable,
        notices: areas.notices,
    };
    if matching::is_graph(outlook, areas.graph) {
        return Ok(());
    }
    Err(Refusal(Reason::WrongGraph, 0))
}

// Refusals 21 to 24.
fn areas_verdict(timetable: Timetable, areas: Lent) -> Result<(), Refusal>
    ensures { verdict_of result
        ≡ areas_verdict (day_of timetable.entry.file.now) (lent areas.entry.notices.now areas.entry.graph.now) }
{
    room_verdict(timetable, areas)?;
    contents_verdict(timetable, areas)
}

// An accepted timetable whose areas are right, or the first of refusals 1 to 11 and 21 to 24.
pub fn examine<'a>(file: &'a [u8], areas: Lent) -> Result<Timetable<'a>, Refusal>
    ensures verdict { verdict_of result ≡ open_verdict (day_of file.now) (lent areas.entry.notices.now areas.entry.graph.now) }
    ensures counts { told_counts result ≡ examined (day_of file.now) (lent areas.entry.notices.now areas.entry.graph.now) }
    ensures of_the_file { IfOk result (λ timetable. timetable.file.now ≡ file.now) }
{
    // no `?`: document 01 has the file check's answer opened by `let .. else`
    let opened = acceptance::open(file);
    let Ok(timetable) = opened else {
        return opened;
    };
    areas_verdict(timetable, areas)?;
    Ok(timetable)
}
