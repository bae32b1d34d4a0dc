// The check of a handed-in graph area whose times stand: its own lists are the certificate. A mark for each connection says
// by which link it is reached, a mark for each board which departure is not followed by another; with both each transfer entry
// is checked by itself.
#![tactic(auto)]

ghost use Rattle.certificate.specs.Telling.{ChangesTold, ListsTold};

use boards::Shown;
use changes::Marked;

// The transfer entries of all connections.
fn changes_right(marked: Marked) -> bool
    ensures { ChangesTold marked.entry.shown.timetable.file.now marked.entry.shown.graph.now marked.entry.marks.now marked.entry.lasts.now marked.entry.shown.timetable.connections result }
{
    (0..marked.shown.timetable.connections).all(|c| marked.change_right(c))
}

// Whether the departure lists of a graph area are those of its times. Memory is fixed, without a heap: the marks stand in arrays. `all` was
// tried in place of the two loops: it left open what the marks are after the calls of its closure, which writes them.
pub fn lists_right(shown: Shown) -> bool
    ensures { ListsTold shown.entry.timetable.file.now shown.entry.graph.now result }
{
    let mut marks = [model::NONE; timetable::MAX_CONNECTIONS];
    let mut lasts = [0u16; timetable::MAX_STOPS];
    let marks = &mut marks[..shown.timetable.connections];
    let lasts = &mut lasts[..shown.timetable.stops];
    for b in 0..shown.timetable.stops {
        if !links::link_first(shown, b, marks) {
            return false;
        }
    }
    for c in 0..shown.timetable.connections {
        if !links::link_next(shown, c, marks, lasts) {
            return false;
        }
    }
    if !links::all_marked(marks) {
        return false;
    }
    changes_right(Marked {
        shown,
        marks,
        lasts,
    })
}
