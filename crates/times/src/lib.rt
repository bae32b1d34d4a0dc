// Expected times, from the timetable and the notices that stand.
#![tactic(auto)]

ghost use Rattle.std.specs.Prelude.{◌≡◌, ◌*◌, ◌<◌, ◌≤◌, length};
ghost use Rattle.model.specs.Day.{day_of};
ghost use Rattle.model.specs.Graph.{times};
ghost use Rattle.times.specs.Times.{Delays, network_in, TimesAt, longest_time};
ghost use Rattle.model.specs.Times.{network_of};
ghost use Rattle.model.specs.Notices.{rows_of, Standing};
ghost use Rattle.notices.specs.Area.{standing_prop};

use model::PrimaryDelay;
use notices::Counted;
use timetable::Timetable;

// When a connection departs and arrives.
#[derive(Clone, Copy)]
pub struct Times {
    pub departure: u16,
    pub arrival: u16,
}

// The times of connection c with this primary delay, where the connection before it arrives at `before`.
fn times_at(timetable: Timetable, c: usize, primary: PrimaryDelay, before: u16) -> Times
    requires c_lt_connections { c < timetable.connections }
    requires before_le_longest_time { (before ≤ longest_time) × (primary.delay ≤ longest_time) }
    ensures { TimesAt timetable.entry.file.now c primary before result.departure result.arrival }
{
    let scheduled = timetable.scheduled_departure(c);
    let travel = timetable.scheduled_arrival(c) - scheduled;
    let own = scheduled + primary.delay;
    let departure = if timetable.stays_aboard(c) {
        own.max(before)
    } else {
        own
    };
    Times {
        departure,
        arrival: departure + travel,
    }
}

// Departure and arrival of each connection.
pub fn fill_times(timetable: Timetable, primaries: &[u32], area: &mut [u16])
    requires { Delays primaries.now timetable.connections × (length area.old ≡ 2 * timetable.connections) }
    ensures { area.new ≡ times (network_in timetable.entry.file.now primaries.now) timetable.entry.connections }
{
    let mut before = 0;
    for c in 0..timetable.connections {
        let primary = delays::primary_in(primaries[c]);
        let t = times_at(timetable, c, primary, before);
        before = t.arrival;
        area[2 * c] = t.departure;
        area[2 * c + 1] = before;
    }
}

// What expected times follow from: a timetable and the notices that stand.
#[derive(Clone, Copy)]
pub struct Outlook<'a> {
    pub timetable: Timetable<'a>,
    pub notices: &'a [u16],
    ghost standing: { Standing timetable.connections notices.now } by { standing_prop timetable.connections notices.now },
}

impl Outlook<'_> {
    // The expected times of each connection.
    #[tactic(auto, using(model::proofs::Areas::standing_fits))]
    pub fn expected_times(self, area: &mut [u16])
        requires { length area.old ≡ 2 * self.timetable.connections }
        ensures { area.new
            ≡ times (network_of (day_of self.entry.timetable.file.now) (rows_of self.entry.notices.now)) self.entry.timetable.connections }
    {
        // no heap: room for the most connections
        let mut primaries = [0u32; timetable::MAX_CONNECTIONS];
        let counted = Counted {
            notices: self.notices,
        };
        delays::standing_delays(counted, &mut primaries);
        fill_times(self.timetable, &primaries, area);
    }
}
