// The connections' primary delays, each with the notice that gives it, by the rows that stand.
#![tactic(auto)]

ghost use Rattle.std.specs.Prelude.{◌≡◌, length};
ghost use Rattle.model.specs.Notices.{rows_of};
ghost use Rattle.model.specs.Times.{prevails, given_by, with_notice};
ghost use Rattle.delays.specs.Delays.{rows_in, primary_in, NoDelays, Tells};

use model::{Notice, PrimaryDelay, WIDTH};
use notices::Counted;

// How many values a number of 16 bits has: `number_size`.
const NUMBER_SIZE: u32 = 65536;

// The primary delay that a number holds.
pub fn primary_in(x: u32) -> PrimaryDelay
    ensures { result ≡ primary_in x }
{
    PrimaryDelay {
        delay: (x % NUMBER_SIZE) as u16,
        notice: (x / NUMBER_SIZE) as u16,
    }
}

// Whether a notice's delay prevails over another: the longer one, of one length that of the lower number. A comparison of tuples would mix
// the two sides.
#[tactic(auto, unfolding(model::specs::Times::prevails))]
fn prevails(notice: Notice, other: PrimaryDelay) -> bool
    ensures { result ≡ prevails (given_by notice) other }
{
    other.delay < notice.delay || notice.delay == other.delay && notice.number < other.notice
}

// The number that holds the primary delay of a notice's connection with this notice.
fn with_notice(notice: Notice, x: u32) -> u32
    ensures { primary_in result ≡ with_notice notice.connection notice (primary_in x) }
{
    if prevails(notice, primary_in(x)) {
        return notice.delay as u32 + NUMBER_SIZE * notice.number as u32;
    }
    x
}

// The primary delays of the connections, as many as `primaries` has room for, by the rows that are lent.
fn primary_delays(rows: &[u16], primaries: &mut [u32])
    requires { NoDelays primaries.old }
    ensures { Tells (rows_in rows.now) primaries.new (length primaries.old) }
{
    for row in rows.chunks_exact(WIDTH) {
        let notice = notices::row_at(row, 0);
        let c = notice.connection as usize;
        if c < primaries.len() {
            primaries[c] = with_notice(notice, primaries[c]);
        }
    }
}

// The primary delays of the connections by the notices that stand: their rows are lent and no other number.
pub fn standing_delays(counted: Counted, primaries: &mut [u32])
    requires { NoDelays primaries.old }
    ensures { Tells (rows_of counted.entry.notices.now) primaries.new (length primaries.old) }
{
    let notices = counted.notices;
    let end = 1 + WIDTH * (notices[0] as usize);
    primary_delays(&notices[1..end], primaries);
}
