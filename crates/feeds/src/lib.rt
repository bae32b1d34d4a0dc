// The rows of a text read one after the other: refusal 31, and the connections that they make, into an area of bytes.
#![tactic(auto)]

ghost use Rattle.std.specs.Prelude.{◌≡◌, length};
ghost use Rattle.gtfs.specs.Feed.{may_follow};
ghost use Rattle.feeds.specs.Progress.{connections_room, alone_after, Advancing, advanced, connected};
ghost use Rattle.feeds.specs.Reading.{Taking, Taken, Reading, RowsRead};

use gtfs::StopTime;
use refusals::{Reason, Refusal};

// How many bytes the connections of a timetable have at most: `connections_room`.
pub const CONNECTIONS_ROOM: usize = timetable::CONNECTION_LENGTH * timetable::MAX_CONNECTIONS;

// What is known after some rows.
#[derive(Clone, Copy)]
pub struct Progress {
    // the last row, 0 before the first
    pub row: usize,
    // how many trips have begun
    pub trips: u32,
    // the last row's stop, departure and stop_sequence
    pub stop: u16,
    pub departure: u16,
    pub sequence: u16,
    // whether the last row has the trip of the one before it, or no row has been read; no value hangs on it
    pub joined: bool,
    // the first row found alone in its trip
    pub alone: Option<usize>,
    // how many connections the rows make
    pub connections: usize,
}

// Whether a row may come next.
fn may_follow(progress: Progress, row: StopTime) -> bool
    ensures { result ≡ may_follow progress.trips progress.sequence row }
{
    let trip = row.trip as u32;
    trip == progress.trips || trip + 1 == progress.trips && progress.sequence < row.sequence
}

// The first row found alone in its trip, where the last row's trip ends with it.
fn alone_after(progress: Progress) -> Option<usize>
    ensures { result ≡ alone_after progress }
{
    if progress.joined {
        progress.alone
    } else {
        progress.alone.or(Some(progress.row))
    }
}

// What is known after one row more.
fn advance(progress: Progress, row: StopTime) -> Progress
    requires { Advancing progress }
    ensures { result ≡ advanced progress row }
{
    let trips = row.trip as u32 + 1;
    let joined = trips == progress.trips;
    Progress {
        row: progress.row + 1,
        trips,
        stop: row.stop,
        departure: row.departure,
        sequence: row.sequence,
        joined,
        alone: if joined {
            progress.alone
        } else {
            alone_after(progress)
        },
        connections: progress.connections + usize::from(joined),
    }
}

// The connection from the last row to the next one of its trip, into its place of the area, as far as a timetable has connections.
#[tactic(auto, using(numbers::proofs::Bytes::numbers_placed))]
fn put_connection(progress: Progress, row: StopTime, area: &mut [u8])
    requires { length area.old ≡ connections_room }
    ensures { area.new ≡ connected progress row area.old }
{
    if row.trip as u32 + 1 != progress.trips {
        return;
    }
    let n = progress.connections;
    if timetable::MAX_CONNECTIONS <= n {
        return;
    }
    let connection = [
        row.trip,
        progress.stop,
        row.stop,
        progress.departure,
        row.arrival,
    ];
    let at = timetable::CONNECTION_LENGTH * n;
    let end = at + timetable::CONNECTION_LENGTH;
    numbers::write_area(&connection, &mut area[at..end]);
}

// One row more of a text, from a place on: what is known then and where the next line starts; none where the line is no row that may
// follow.
fn take_row(
    text: &[u8],
    at: usize,
    progress: Progress,
    area: &mut [u8],
) -> Option<(Progress, usize)>
    requires { Taking text.now at progress area.old }
    ensures { Taken result area.new area.old text.now at progress }
{
    let (row, next) = stop_times::next_row(text, at)?;
    if !may_follow(progress, row) {
        return None;
    }
    put_connection(progress, row, area);
    Some((advance(progress, row), next))
}

// The rows after the first line of a text: how many connections they make, or refusal 31. By places, and not by the lines of the
// text: a row is found column by column, and an iterator over lines would go through each line once more.
fn read_body(text: &[u8], area: &mut [u8]) -> Result<usize, Refusal<usize>>
    requires { Reading text.now area.old }
    ensures { RowsRead result area.new area.old text.now }
{
    let mut progress = Progress {
        row: 0,
        trips: 0,
        stop: 0,
        departure: 0,
        sequence: 0,
        joined: true,
        alone: None,
        connections: 0,
    };
    let mut at = gtfs::HEADER_TEXT.len();
    while at < text.len() {
        let wrong = Refusal(Reason::WrongTextRow, progress.row + 1);
        (progress, at) = take_row(text, at, progress, area).ok_or(wrong)?;
    }
    match alone_after(progress) {
        Some(row) => Err(Refusal(Reason::WrongTextRow, row)),
        None => Ok(progress.connections),
    }
}

// The connections that a text's rows make, into an area, as far as a timetable has connections: how many they are, or refusal 31.
#[tactic(auto, using(crate::proofs::Verdicts::header_wrong))]
pub fn read_rows(text: &[u8], area: &mut [u8]) -> Result<usize, Refusal<usize>>
    requires { length area.old ≡ connections_room }
    ensures { RowsRead result area.new area.old text.now }
{
    if !cuts::starts_with(text, gtfs::HEADER_TEXT) {
        return Err(Refusal(Reason::WrongTextRow, 0));
    }
    read_body(text, area)
}
