// The timetable file: its limits by name, and readers of its fields.
#![tactic(auto)]

ghost use Rattle.std.specs.Prelude.{◌≡◌, ◌+◌, ◌*◌, ◌<◌, ◌≤◌, length};
ghost use Rattle.timetable.specs.File.{header_length, stops, connections, place_after, transfer_time, field, trip, from, to, scheduled_departure, scheduled_arrival, stays_aboard};
ghost use Rattle.timetable.specs.Accepted.{Opened, opened_prop};
ghost use Rattle.timetable.specs.Check.{max_transfer_time};
ghost use Rattle.timetable.specs.Room.{HasCount, HasStop, HoldsEach};

// The length of the header, and of one connection: `header_length` and `connection_length`.
pub const HEADER_LENGTH: usize = 9;

pub const CONNECTION_LENGTH: usize = 10;

// The version of the format: `format_version`.
pub const FORMAT_VERSION: u16 = 1;

// How many stops and connections a timetable has at most: `max_stops` and `max_connections`.
pub const MAX_STOPS: usize = 500;

pub const MAX_CONNECTIONS: usize = 2000;

// The longest minimum transfer time: `max_transfer_time`.
pub const MAX_TRANSFER_TIME: u16 = 60;

// The last minute at which a connection may arrive by the timetable: `last_scheduled`.
pub const LAST_SCHEDULED: u16 = 4319;

// How many stops and connections a timetable has.
#[derive(Clone, Copy, Debug, PartialEq, Eq)]
pub struct Counts {
    pub stops: u16,
    pub connections: u16,
}

// How many stops a file with a header has: each count is a field by its name.
pub fn stops(file: &[u8]) -> u16
    requires { header_length ≤ length file.now }
    ensures { result ≡ stops file.now }
{
    numbers::number_at(file, 5)
}

// How many connections a file with a header has.
pub fn connections(file: &[u8]) -> u16
    requires { header_length ≤ length file.now }
    ensures { result ≡ connections file.now }
{
    numbers::number_at(file, 7)
}

// The fields of a file, by how many stops it says that it has, and of the connections that it holds as many as are to be read.
#[derive(Clone, Copy)]
pub struct Fields<'a> {
    pub file: &'a [u8],
    pub stops: usize,
    pub connections: usize,
    ghost counted: { HasCount file.now stops },
    ghost holds: { HoldsEach file.now stops connections },
}

// An accepted timetable file, with its counts.
#[derive(Clone, Copy)]
pub struct Timetable<'a> {
    pub file: &'a [u8],
    pub stops: usize,
    pub connections: usize,
    ghost opened: { Opened file.now stops connections } by { opened_prop file.now stops connections },
}

// A reader for each field by its name: one reader over an enum of the fields would have a case for each of them, and every caller would
// name two things for one.
impl Fields<'_> {
    // The minimum transfer time of stop s.
    #[tactic(auto, unfolding(crate::specs::File::transfer_time))]
    pub fn transfer_time(self, s: usize) -> u16
        requires { HasStop self.file.now s }
        ensures { result ≡ transfer_time self.entry.file.now s }
    {
        numbers::number_at(self.file, HEADER_LENGTH + 2 * s)
    }

    // The k-th of the five numbers of connection c.
    fn field(self, c: usize, k: usize) -> u16
        requires { place_after self.stops c + 2 * k + 1 < length self.file.now }
        ensures { result ≡ field k self.entry.file.now c }
    {
        numbers::number_at(
            self.file,
            HEADER_LENGTH + 2 * self.stops + CONNECTION_LENGTH * c + 2 * k,
        )
    }

    // The trip of connection c.
    #[tactic(auto, unfolding(crate::specs::File::trip))]
    pub fn trip(self, c: usize) -> u16
        requires { c < self.connections }
        ensures { result ≡ trip self.entry.file.now c }
    {
        self.field(c, 0)
    }

    // The stop that connection c starts from.
    #[tactic(auto, unfolding(crate::specs::File::from))]
    pub fn from(self, c: usize) -> u16
        requires { c < self.connections }
        ensures { result ≡ from self.entry.file.now c }
    {
        self.field(c, 1)
    }

    // The stop that connection c goes to.
    #[tactic(auto, unfolding(crate::specs::File::to))]
    pub fn to(self, c: usize) -> u16
        requires { c < self.connections }
        ensures { result ≡ to self.entry.file.now c }
    {
        self.field(c, 2)
    }

    // When connection c departs by the timetable.
    #[tactic(auto, unfolding(crate::specs::File::scheduled_departure))]
    pub fn scheduled_departure(self, c: usize) -> u16
        requires { c < self.connections }
        ensures { result ≡ scheduled_departure self.entry.file.now c }
    {
        self.field(c, 3)
    }

    // When connection c arrives by the timetable.
    #[tactic(auto, unfolding(crate::specs::File::scheduled_arrival))]
    pub fn scheduled_arrival(self, c: usize) -> u16
        requires { c < self.connections }
        ensures { result ≡ scheduled_arrival self.entry.file.now c }
    {
        self.field(c, 4)
    }

    // Whether connection c has the trip of the one before it.
    #[tactic(auto, unfolding(crate::specs::File::stays_aboard))]
    pub fn stays_aboard(self, c: usize) -> bool
        requires { c < self.connections }
        ensures { result ≡ stays_aboard self.entry.file.now c }
    {
        if c == 0 {
            return false;
        }
        self.trip(c) == self.trip(c - 1)
    }
}

// The same readers, by what is accepted: stops and transfer times have bounds.
impl<'a> Timetable<'a> {
    // The fields of the file.
    pub fn fields(self) -> Fields<'a>
        ensures file { result.file.now ≡ self.entry.file.now }
        ensures counts { (result.stops ≡ self.entry.stops) × (result.connections ≡ self.entry.connections) }
    {
        Fields {
            file: self.file,
            stops: self.stops,
            connections: self.connections,
        }
    }

    // The minimum transfer time of stop s.
    pub fn transfer_time(self, s: usize) -> u16
        requires { s < self.stops }
        ensures value { result ≡ transfer_time self.entry.file.now s }
        ensures few { result ≤ max_transfer_time }
    {
        self.fields().transfer_time(s)
    }

    // The trip of connection c.
    pub fn trip(self, c: usize) -> u16
        requires { c < self.connections }
        ensures { result ≡ trip self.entry.file.now c }
    {
        self.fields().trip(c)
    }

    // The stop that connection c starts from.
    pub fn from(self, c: usize) -> u16
        requires { c < self.connections }
        ensures value { result ≡ from self.entry.file.now c }
        ensures stop { result < self.entry.stops }
    {
        self.fields().from(c)
    }

    // The stop that connection c goes to.
    pub fn to(self, c: usize) -> u16
        requires { c < self.connections }
        ensures value { result ≡ to self.entry.file.now c }
        ensures stop { result < self.entry.stops }
    {
        self.fields().to(c)
    }

    // When connection c departs by the timetable.
    pub fn scheduled_departure(self, c: usize) -> u16
        requires { c < self.connections }
        ensures { result ≡ scheduled_departure self.entry.file.now c }
    {
        self.fields().scheduled_departure(c)
    }

    // When connection c arrives by the timetable.
    pub fn scheduled_arrival(self, c: usize) -> u16
        requires { c < self.connections }
        ensures { result ≡ scheduled_arrival self.entry.file.now c }
    {
        self.fields().scheduled_arrival(c)
    }

    // Whether connection c has the trip of the one before it.
    pub fn stays_aboard(self, c: usize) -> bool
        requires { c < self.connections }
        ensures { result ≡ stays_aboard self.entry.file.now c }
    {
        self.fields().stays_aboard(c)
    }
}
