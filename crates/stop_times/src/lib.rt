// Rows of stop_times.txt read: the columns of a row one after the other.
#![tactic(auto)]

ghost use Rattle.std.specs.Prelude.{◌≡◌, ◌≤◌, length};
ghost use Rattle.stop_times.specs.Columns.{line_at};

use gtfs::StopTime;

// The row that starts at a place of a text, with the place after its newline; none where it cannot be read or no newline ends it.
pub fn next_row(text: &[u8], at: usize) -> Option<(StopTime, usize)>
    requires { at ≤ length text.now }
    ensures { result ≡ line_at text.now at }
{
    let (trip, a) = cuts::column(text, at, gtfs::COMMA, decimals::read_number)?;
    let (arrival, d) = cuts::column(text, a, gtfs::COMMA, clocks::read_time)?;
    let (departure, s) = cuts::column(text, d, gtfs::COMMA, clocks::read_time)?;
    let (stop, q) = cuts::column(text, s, gtfs::COMMA, decimals::read_number)?;
    let (sequence, next) = cuts::column(text, q, gtfs::NEWLINE, decimals::read_number)?;
    let row = StopTime {
        trip,
        arrival,
        departure,
        stop,
        sequence,
    };
    Some((row, next))
}
