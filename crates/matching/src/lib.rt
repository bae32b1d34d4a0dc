// Whether a graph area is the one of a timetable and the notices that stand (refusal 24).
#![tactic(auto)]

ghost use Rattle.std.specs.Prelude.{◌≡◌, ◌*◌, ◌≤◌, length, take};
ghost use Rattle.model.specs.Day.{day_of};
ghost use Rattle.model.specs.Notices.{rows_of};
ghost use Rattle.model.specs.Graph.{times};
ghost use Rattle.model.specs.Drawn.{same, graph_length, graph_for};
ghost use Rattle.model.specs.Times.{network_of};

use boards::Shown;
use times::Outlook;

// How many times the connections have at most: two each.
const MAX_TIMES: usize = 2 * timetable::MAX_CONNECTIONS;

// Whether an area of two numbers for each connection has the expected times. The library compares several numbers at once.
fn times_right(outlook: Outlook, area: &[u16]) -> bool
    requires { length area.now ≡ 2 * outlook.timetable.connections }
    ensures { result
        ≡ same area.now
        (times (network_of (day_of outlook.entry.timetable.file.now) (rows_of outlook.entry.notices.now)) outlook.entry.timetable.connections) }
{
    // no heap: room for the most times
    let mut want = [0u16; MAX_TIMES];
    let end = 2 * outlook.timetable.connections;
    outlook.expected_times(&mut want[..end]);
    area == &want[..end]
}

// Whether the area is the one of the timetable and the notices that stand: its times are the expected ones, and its lists are
// those of its times.
pub fn is_graph(outlook: Outlook, graph: &[u16]) -> bool
    requires { graph_length outlook.timetable.file.now ≤ length graph.now }
    ensures { result
        ≡ same (take (graph_length outlook.entry.timetable.file.now) graph.now)
        (graph_for (day_of outlook.entry.timetable.file.now) (rows_of outlook.entry.notices.now)) }
{
    let end = 2 * outlook.timetable.connections;
    if !times_right(outlook, &graph[..end]) {
        return false;
    }
    certificate::lists_right(Shown {
        timetable: outlook.timetable,
        graph,
    })
}
