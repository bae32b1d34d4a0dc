// What a timetable and a graph area whose times stand show: on which board a departure is listed, when connections depart and arrive, when
// a passenger is ready to leave again, and the entries of the departure lists.
#![tactic(auto)]

ghost use Rattle.std.specs.Prelude.{◌≡◌, ◌+◌, ◌<◌, ◌≤◌, length};
ghost use Rattle.timetable.specs.Check.{max_transfer_time};
ghost use Rattle.model.specs.Network.{Sound, last_expected};
ghost use Rattle.model.specs.Graph.{departure_in, arrival_in, waiting_in, transfer_in, first_in};
ghost use Rattle.model.specs.Drawn.{graph_length};
ghost use Rattle.model.specs.Shown.{shown};
ghost use Rattle.boards.specs.Timed.{board_in, ready_in, ReadyRoom};

use timetable::{Fields, Timetable};

// The board on which the departure of connection c is listed: that of its stop.
pub fn board(fields: Fields, c: usize) -> u16
    requires { c < fields.connections }
    ensures { result ≡ board_in fields.entry.file.now c }
{
    fields.from(c)
}

// The same, of an accepted timetable.
pub fn departure_board(timetable: Timetable, c: usize) -> u16
    requires { c < timetable.connections }
    ensures value { result ≡ board_in timetable.entry.file.now c }
    ensures below { result < timetable.entry.stops }
{
    timetable.from(c)
}

// When a passenger who arrives by connection c is ready to leave again.
pub fn ready(fields: Fields, graph: &[u16], c: usize) -> u16
    requires { (c < fields.connections) × ReadyRoom fields.file.now graph.now c }
    ensures { result ≡ ready_in fields.entry.file.now graph.now c }
{
    let stop = fields.to(c) as usize;
    entries::arrival(graph, c) + fields.transfer_time(stop)
}

// An accepted timetable and a graph area that has room for its graph and shows sound times.
#[derive(Clone, Copy)]
pub struct Shown<'a> {
    pub timetable: Timetable<'a>,
    pub graph: &'a [u16],
    ghost sound: { Sound (shown timetable.file.now graph.now) },
    ghost room: { graph_length timetable.file.now ≤ length graph.now },
}

// The readers of entries, for what is shown: each tells a bound besides, or asks for less.
impl Shown<'_> {
    // The board on which the departure of connection c is listed.
    pub fn board(self, c: usize) -> u16
        requires { c < self.timetable.connections }
        ensures value { result ≡ board_in self.entry.timetable.file.now c }
        ensures below { result < self.entry.timetable.stops }
    {
        departure_board(self.timetable, c)
    }

    // The expected departure of connection c.
    pub fn departure(self, c: usize) -> u16
        requires { c < self.timetable.connections }
        ensures value { result ≡ departure_in self.entry.graph.now c }
        ensures early { result < last_expected }
    {
        entries::departure(self.graph, c)
    }

    // The expected arrival of connection c.
    pub fn arrival(self, c: usize) -> u16
        requires { c < self.timetable.connections }
        ensures value { result ≡ arrival_in self.entry.graph.now c }
        ensures early { result ≤ last_expected }
    {
        entries::arrival(self.graph, c)
    }

    // When a passenger who arrives by connection c is ready to leave again.
    pub fn ready(self, c: usize) -> u16
        requires { c < self.timetable.connections }
        ensures value { result ≡ ready_in self.entry.timetable.file.now self.entry.graph.now c }
        ensures early { result ≤ last_expected + max_transfer_time }
    {
        ready(self.timetable.fields(), self.graph, c)
    }

    // The waiting entry of connection c.
    pub fn waiting(self, c: usize) -> u16
        requires { c < self.timetable.connections }
        ensures { result ≡ waiting_in self.entry.graph.now self.entry.timetable.connections c }
    {
        entries::waiting(self.graph, self.timetable.connections, c)
    }

    // The transfer entry of connection c.
    pub fn transfer(self, c: usize) -> u16
        requires { c < self.timetable.connections }
        ensures { result ≡ transfer_in self.entry.graph.now self.entry.timetable.connections c }
    {
        entries::transfer(self.graph, self.timetable.connections, c)
    }

    // The first departure of board b.
    pub fn first_departure(self, b: usize) -> u16
        requires { b < self.timetable.stops }
        ensures { result ≡ first_in self.entry.graph.now self.entry.timetable.connections b }
    {
        entries::first_departure(self.graph, self.timetable.connections, b)
    }
}
