// The predecessors of an enquiry: one pass over the connections in the order of departure, in place.
#![tactic(auto)]

ghost use Rattle.std.specs.Prelude.{◌≡◌, ◌++◌, ◌≤◌, length, drop};
ghost use Rattle.timetable.specs.File.{connections};
ghost use Rattle.model.specs.Graph.{departure_in};
ghost use Rattle.model.specs.Order.{Ordered};
ghost use Rattle.model.specs.Predecessors.{predecessors};
ghost use Rattle.model.specs.Shown.{shown};

use model::NONE;
pub use settling::Search;

// The predecessors, where the work area has an entry for each connection and no more.
fn sweep(search: Search, order: &[u16], work: &mut [u16])
    requires work_len { length work.old ≡ search.network.shown.timetable.connections }
    requires ordered { Ordered (departure_in search.network.shown.graph.now) (connections search.network.shown.timetable.file.now) (connections search.network.shown.timetable.file.now) order.now }
    ensures { work.new ≡ predecessors (shown search.entry.network.shown.timetable.file.now search.entry.network.shown.graph.now) search.entry.from search.entry.time }
{
    work.fill(NONE);
    for d in &order[..work.len()] {
        visits::turn(search, *d, work);
    }
}

// The predecessor of each connection for a search: one pass over the connections in the order of departure.
pub fn fill_predecessors(search: Search, order: &[u16], work: &mut [u16])
    requires work_room { search.network.shown.timetable.connections ≤ length work.old }
    requires ordered { Ordered (departure_in search.network.shown.graph.now) (connections search.network.shown.timetable.file.now) (connections search.network.shown.timetable.file.now) order.now }
    ensures { work.new
        ≡ predecessors (shown search.entry.network.shown.timetable.file.now search.entry.network.shown.graph.now) search.entry.from search.entry.time
        ++ drop search.entry.network.shown.timetable.connections work.old }
{
    let n = search.network.shown.timetable.connections;
    sweep(search, order, &mut work[..n]);
}
