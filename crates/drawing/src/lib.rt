// The graph area, filled for a timetable and the notices that stand.
#![tactic(auto, using(crate::proofs::Lent::put_part))]

ghost use Rattle.std.specs.Prelude.{◌≡◌, ◌≤◌, length};
ghost use Rattle.model.specs.Day.{day_of};
ghost use Rattle.model.specs.Network.{Sound};
ghost use Rattle.model.specs.Notices.{rows_of};
ghost use Rattle.model.specs.Drawn.{graph_length, graph_with};
ghost use Rattle.model.specs.Shown.{shown};
ghost use Rattle.drawing.specs.Area.{with_lists};

use boards::Shown;
use times::Outlook;
use timetable::Timetable;

// The three parts behind the times that stand. Memory is fixed, without a heap: what the sweeps need stands in arrays.
fn put_lists(timetable: Timetable, graph: &mut [u16])
    requires { Sound (shown timetable.file.now graph.old) × (graph_length timetable.file.now ≤ length graph.old) }
    ensures { graph.new ≡ with_lists timetable.entry.file.now graph.old }
{
    let mut order = [0u16; departures::MAX_EVENTS];
    let mut heads = [0u16; timetable::MAX_STOPS];
    let mut departed = [0u16; departures::MAX_EVENTS];
    let heads = &mut heads[..timetable.stops];
    departures::order_events(Shown { timetable, graph }, &mut order);
    let n = timetable.connections;
    let k = transfers::fill_transfers(
        timetable,
        &order,
        heads,
        &mut departed,
        &mut graph[3 * n..4 * n],
    );
    graph[4 * n..4 * n + timetable.stops].copy_from_slice(heads);
    lists::fill_waiting(timetable, &departed[..k], &mut graph[2 * n..3 * n]);
}

// The graph area of a timetable and the notices that stand.
pub fn fill_graph(outlook: Outlook, graph: &mut [u16])
    requires { graph_length outlook.timetable.file.now ≤ length graph.old }
    ensures { graph.new
        ≡ graph_with (day_of outlook.entry.timetable.file.now) (rows_of outlook.entry.notices.now) graph.old }
{
    let end = 2 * outlook.timetable.connections;
    outlook.expected_times(&mut graph[..end]);
    put_lists(outlook.timetable, graph);
}
