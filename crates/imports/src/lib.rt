// Import: the timetable file of stop_times.txt and of each stop's transfer time.
#![tactic(auto)]

ghost use Rattle.std.specs.Prelude.{◌≡◌, ℕ, ◌≤◌, length, Ok};
ghost use Rattle.std.proofs.lemmas.List.Edits.{sets};
ghost use Rattle.gtfs.specs.Conversions.{conversion, imported};
ghost use Rattle.refusals.specs.Answers.{told};
ghost use Rattle.imports.specs.Making.{file_room, Heading, heading_of, Finished, FileMade, delivered};

use gtfs::Converted;
use refusals::{Reason, Refusal};

// The header of a file and its transfer times, the first s numbers of `change`, at the front of an area.
fn put_header(change: &[u8], s: usize, n: usize, file: &mut [u8])
    requires { Heading change.now s n file.old }
    ensures { file.new ≡ sets file.old 0 (heading_of change.now s n) }
{
    labels::put_text(b"TTG", file, 0);
    let counts = [timetable::FORMAT_VERSION, s as u16, n as u16];
    numbers::write_area(&counts, &mut file[3..timetable::HEADER_LENGTH]);
    labels::put_text(&change[0..2 * s], file, timetable::HEADER_LENGTH);
}

// The file of a text's connections, which stand in it behind the room for s transfer times, if it is a timetable.
fn finish_file(change: &[u8], s: usize, n: usize, file: &mut [u8]) -> Converted
    requires { Heading change.now s n file.old }
    ensures { Finished result file.new file.old change.now s n }
{
    put_header(change, s, n, file);
    let size = timetable::HEADER_LENGTH + 2 * s + timetable::CONNECTION_LENGTH * n;
    acceptance::check(&file[0..size])?;
    Ok(size)
}

// The file of a text and of transfer times at the front of an area with room for the longest one, if there is one.
fn make_file(text: &[u8], change: &[u8], file: &mut [u8]) -> Converted
    requires { length file.old ≡ file_room }
    ensures { FileMade result file.new text.now change.now }
{
    let s = change.len() / 2;
    let behind = timetable::HEADER_LENGTH + 2 * s.min(timetable::MAX_STOPS);
    let end = behind + feeds::CONNECTIONS_ROOM;
    let n = feeds::read_rows(text, &mut file[behind..end])?;
    if s < 1 {
        return Err(Refusal(Reason::WrongStopCount, 0));
    }
    if timetable::MAX_STOPS < s {
        return Err(Refusal(Reason::WrongStopCount, 0));
    }
    if timetable::MAX_CONNECTIONS < n {
        return Err(Refusal(Reason::WrongConnectionCount, 0));
    }
    finish_file(change, s, n, file)
}

// The timetable file of a text and of each stop's transfer time, an area of numbers, into an output area.
pub fn import(text: &[u8], change: &[u8], output: &mut [u8]) -> Converted
    ensures { conversion (told result) output.new
        ≡ imported text.now change.now output.old }
{
    // Room for the longest file, `file_room`. No Vec: the library has no heap, its memory is fixed.
    let mut file = [0u8; acceptance::LONGEST_FILE];
    let n = make_file(text, change, &mut file)?;
    if output.len() < n {
        return Err(Refusal(Reason::ShortOutput, 0));
    }
    labels::put_text(&file[0..n], output, 0);
    Ok(n)
}
