// Every rule of document 01 as a definition (specs/), with the laws that give them their meaning (proofs/). The code here is the
// limits by name, each constant the definition of the same name in specs/, and what definitions and code hand on as structs.
#![tactic(auto)]

// No connection: `none`. The areas hold numbers by document 01, so what is read of them is compared with this number: an Option would
// be made of each number that is read and be undone where it is written.
pub const NONE: u16 = 65535;

// The numbers of one row of the notice area: `width`.
pub const WIDTH: usize = 3;

// How many notices may stand: `room`.
pub const ROOM: u16 = 200;

// The notice area's stated length: `notices_length`.
pub const NOTICES_LENGTH: usize = 601;

// The shortest delay: `least_delay`.
pub const LEAST_DELAY: u16 = 1;

// The longest delay of a posting: `most_posted`.
pub const MOST_POSTED: u16 = 1440;

// The longest delay of a standing row: `most_standing`.
pub const MOST_STANDING: u16 = 1440;

// The last minute of an expected time: `last_expected`.
pub const LAST_EXPECTED: u16 = 5759;

// The longest graph area: `most_graph`.
pub const MOST_GRAPH: usize = 8500;

// A notice: its number, the connection that it is for, and by how many minutes that is delayed.
#[derive(Clone, Copy, Debug, PartialEq, Eq)]
pub struct Notice {
    pub number: u16,
    pub connection: u16,
    pub delay: u16,
}

// What an enquiry asks for: a journey from one stop to another that leaves at a time or later.
#[derive(Clone, Copy, Debug, PartialEq, Eq)]
pub struct Request {
    pub from: u16,
    pub to: u16,
    pub time: u16,
}

// A change: a connection, and the one that the passenger takes next.
#[derive(Clone, Copy, Debug, PartialEq, Eq)]
pub struct Change {
    pub connection: u16,
    pub next: u16,
}

// A notice area and a graph area, lent to be read. Areas that are written are parameters of their own: a struct of their `&mut` has to be
// taken apart before two of them can be lent and put together for the next call, and a contract says what is behind its fields afterwards
// by place, as `areas.exit.0.now` and `areas.exit.1.0.now`.
#[derive(Clone, Copy, Debug)]
pub struct Lent<'a> {
    pub notices: &'a [u16],
    pub graph: &'a [u16],
}

// When a journey arrives, and how many connections it has.
#[derive(Clone, Copy, Debug, PartialEq, Eq)]
pub struct Arrival {
    pub time: u16,
    pub connections: u16,
}

// A connection's primary delay and the number of the notice that gives it.
#[derive(Clone, Copy, Debug, PartialEq, Eq)]
pub struct PrimaryDelay {
    pub delay: u16,
    pub notice: u16,
}
