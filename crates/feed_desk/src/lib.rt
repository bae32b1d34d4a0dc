// The programs that take a timetable from stop_times.txt and change.txt and give it back. What is read and written no contract can say;
// what is worked on the bytes in between is the work of imports, exports and change_lists.
#![tactic(auto)]

ghost use Rattle.std.specs.Prelude.{◌≤◌, length, IfOk};

use files::Failed;
use refusals::Refusal;
use std::io::{Eprint, Print};
use std::rt::Files;
use timetable::Timetable;

// The longest text that is read, and room for one byte more.
const TEXT_ROOM: usize = 1048577;

// The longest list of transfer times that is read, and room for one byte more.
const CHANGE_ROOM: usize = 65537;

// The longest file, and room for one byte more.
const FILE_ROOM: usize = acceptance::LONGEST_FILE + 1;

// Room for the text of any timetable, two rows of at most 36 bytes (`row_room`) for each connection, and for its list of transfer times,
// at most two digits and a newline for each stop.
const MOST_TEXT: usize = gtfs::HEADER_TEXT.len() + 2 * 36 * timetable::MAX_CONNECTIONS;

const MOST_LINES: usize = 3 * timetable::MAX_STOPS;

// Why a conversion stops before it is done.
#[derive(Clone, Copy, Debug)]
enum Stopped {
    // something failed, and a line on standard error has told it
    Failed,
    // a line of change.txt, from 1 on, is no number
    NoNumber(usize),
    Refused(Refusal<usize>),
}

impl From<Failed> for Stopped {
    fn from(_failed: Failed) -> Stopped {
        Stopped::Failed
    }
}

impl From<Refusal<usize>> for Stopped {
    fn from(refusal: Refusal<usize>) -> Stopped {
        Stopped::Refused(refusal)
    }
}

impl From<Refusal> for Stopped {
    fn from(refusal: Refusal) -> Stopped {
        Stopped::Refused(refusal.into())
    }
}

// Tells why a conversion stopped, if it did, a refusal as the desk tells it.
fn tell(rt: &(impl Print + Eprint), done: Result<(), Stopped>) {
    match done {
        Ok(()) | Err(Stopped::Failed) => {}
        Err(Stopped::NoNumber(line)) => {
            let _ = eprintln!(rt; "change.txt: line {line} is no number from 0 to 65535");
        }
        Err(Stopped::Refused(Refusal(reason, place))) => {
            let number = reason.number();
            let _ = println!(rt; "no {number} at {place}");
        }
    }
}

// The counts of a timetable, as the desk tells them: the text of `lines::write_counts` once more, since that one writes into an area and
// this is a `println!` on a handle.
fn print_counts(rt: &impl Print, timetable: Timetable) {
    let stops = timetable.stops;
    let rides = timetable.connections;
    let _ = println!(rt; "stops {stops} rides {rides}");
}

// The file of a name into an area; its bytes, as far as the area has room.
fn load<'a>(rt: &(impl Files + Eprint), name: &str, area: &'a mut [u8]) -> Result<&'a [u8], Failed>
    ensures { IfOk result (λ bytes. length bytes.now ≤ length area.old) }
{
    let n = files::told(rt, name, files::load(rt, name, area))?;
    Ok(&area[..n])
}

// The same, where a file that fills the area is too long.
fn load_whole<'a>(
    rt: &(impl Files + Eprint),
    name: &str,
    area: &'a mut [u8],
) -> Result<&'a [u8], Failed>
    ensures { IfOk result (λ bytes. length bytes.now ≤ length area.old) }
{
    let room = area.len();
    let bytes = load(rt, name, area)?;
    if bytes.len() == room {
        let most = room.saturating_sub(1);
        let _ = eprintln!(rt; "{name}: longer than {most} bytes");
        return Err(Failed);
    }
    Ok(bytes)
}

// The timetable of stop_times.txt and change.txt into day.ttg.
fn import(rt: &(impl Files + Print + Eprint)) -> Result<(), Stopped> {
    // No Vec: the programs have no heap, their memory is fixed.
    let mut text = [0u8; TEXT_ROOM];
    let mut lines = [0u8; CHANGE_ROOM];
    let mut change = [0u8; CHANGE_ROOM];
    let mut file = [0u8; FILE_ROOM];
    let text = load_whole(rt, "stop_times.txt", &mut text)?;
    let lines = load_whole(rt, "change.txt", &mut lines)?;
    let m = change_lists::read_changes(lines, &mut change).map_err(Stopped::NoNumber)?;
    let n = imports::import(text, &change[..m], &mut file)?;
    let file = &file[..n];
    files::store(rt, "day.ttg.new", file)?;
    files::publish(rt, "day.ttg.new", "day.ttg")?;
    print_counts(rt, acceptance::open(file)?);
    Ok(())
}

// Writes a text and a list of transfer times as stop_times.txt and change.txt.
fn write_feed(rt: &(impl Files + Eprint), text: &[u8], lines: &[u8]) -> Result<(), Failed> {
    files::store(rt, "stop_times.txt.new", text)?;
    files::store(rt, "change.txt.new", lines).inspect_err(|_| files::remove(
        rt,
        "stop_times.txt.new",
    ))?;
    files::publish(rt, "stop_times.txt.new", "stop_times.txt").inspect_err(|_| files::remove(
        rt,
        "change.txt.new",
    ))?;
    files::publish(rt, "change.txt.new", "change.txt")
}

// The timetable of day.ttg into stop_times.txt and change.txt.
fn export(rt: &(impl Files + Print + Eprint)) -> Result<(), Stopped> {
    // No Vec: the programs have no heap, their memory is fixed.
    let mut file = [0u8; FILE_ROOM];
    let mut text = [0u8; MOST_TEXT];
    let mut lines = [0u8; MOST_LINES];
    let file = load(rt, "day.ttg", &mut file)?;
    let n = exports::export(file, &mut text)?;
    let timetable = acceptance::open(file)?;
    let m = change_lists::write_changes(timetable, &mut lines);
    write_feed(rt, &text[..n], &lines[..m])?;
    print_counts(rt, timetable);
    Ok(())
}

// The timetable of stop_times.txt and change.txt into day.ttg; its counts are told, or why there is none.
pub fn import_feed(rt: &(impl Files + Print + Eprint)) {
    tell(rt, import(rt));
}

// The timetable of day.ttg into stop_times.txt and change.txt; its counts are told, or why there is none.
pub fn export_feed(rt: &(impl Files + Print + Eprint)) {
    tell(rt, export(rt));
}
