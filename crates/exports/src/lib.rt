// Export: stop_times.txt of a timetable file.
#![tactic(auto)]

ghost use Rattle.std.specs.Prelude.{◌≡◌, ◌<◌, ◌≤◌, ◌++◌, length, drop};
ghost use Rattle.decimals.specs.Written.{Written};
ghost use Rattle.gtfs.specs.Rows.{position, rows_at, rows_text, text_of};
ghost use Rattle.gtfs.specs.Conversions.{conversion, exported};
ghost use Rattle.refusals.specs.Answers.{told};
ghost use Rattle.exports.specs.Room.{RowsFit};

use gtfs::Converted;
use refusals::{Reason, Refusal};
use timetable::Timetable;

// How long the rows of connection c are.
#[tactic(auto, using(crate::proofs::Room::lengths))]
fn rows_length(timetable: Timetable, c: usize, before: u16) -> usize
    requires { (c < timetable.connections) × (before ≡ position timetable.file.now c) }
    ensures { result ≡ length (rows_text (rows_at timetable.entry.file.now c)) }
{
    let length = row_texts::row_length(file_rows::end_row(timetable, c, before));
    if before == 0 {
        return length + row_texts::row_length(file_rows::start_row(timetable, c));
    }
    length
}

// How long the text of a timetable is.
#[tactic(auto, using(gtfs::proofs::Rows::up_to_none, gtfs::proofs::Rows::length_next, file_rows::proofs::Positions::last_next))]
fn text_length(timetable: Timetable) -> usize
    ensures { result ≡ length (text_of timetable.entry.file.now) }
{
    let mut size = gtfs::HEADER_TEXT.len();
    let mut position = 0;
    for c in 0..timetable.connections {
        position = file_rows::next_position(timetable, c, position);
        size += rows_length(timetable, c, position);
    }
    size
}

// The rows of connection c into text from a place on; the place after them.
#[tactic(auto, using(gtfs::proofs::Rows::stay_text, crate::proofs::Room::only_fits))]
fn put_rows(timetable: Timetable, c: usize, before: u16, text: &mut [u8], at: usize) -> usize
    requires { RowsFit timetable.file.now timetable.connections c before at text.old }
    ensures { Written result text.new text.old at (rows_text (rows_at timetable.entry.file.now c)) }
{
    let last = file_rows::end_row(timetable, c, before);
    if before == 0 {
        let next = row_texts::put_row(file_rows::start_row(timetable, c), text, at);
        return row_texts::put_row(last, text, next);
    }
    row_texts::put_row(last, text, at)
}

// The text of a timetable at the front of an area.
#[tactic(auto, using(gtfs::proofs::Rows::up_to_none, gtfs::proofs::Rows::length_all, gtfs::proofs::Rows::rows_within))]
fn write_text(timetable: Timetable, text: &mut [u8])
    requires { length (text_of timetable.file.now) ≤ length text.old }
    ensures { text.new ≡ text_of timetable.entry.file.now
        ++ drop (length (text_of timetable.entry.file.now)) text.old }
{
    let mut at = labels::put_text(gtfs::HEADER_TEXT, text, 0);
    let mut position = 0;
    for c in 0..timetable.connections {
        position = file_rows::next_position(timetable, c, position);
        at = put_rows(timetable, c, position, text, at);
    }
}

// The text of a timetable file into an output area.
pub fn export(file: &[u8], text: &mut [u8]) -> Converted
    ensures { conversion (told result) text.new ≡ exported file.now text.old }
{
    let timetable = acceptance::open(file)?;
    let size = text_length(timetable);
    if text.len() < size {
        return Err(Refusal(Reason::ShortOutput, 0));
    }
    write_text(timetable, text);
    Ok(size)
}
