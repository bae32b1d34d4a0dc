// Rows of stop_times.txt written: a column with the byte that ends it, a row, and how long a row is.
#![tactic(auto)]

ghost use Rattle.std.specs.Prelude.{◌≡◌, ◌+◌, ◌≤◌, ◌<◌, length};
ghost use Rattle.decimals.specs.Decimal.{decimal_of};
ghost use Rattle.decimals.specs.Written.{Written};
ghost use Rattle.gtfs.specs.Clock.{two_digits};
ghost use Rattle.gtfs.specs.StopTimes.{comma, number_cell, time_cell, row_text};
ghost use Rattle.row_texts.specs.Room.{clock_room, RowFits};

use gtfs::StopTime;

// A number below 100 in two digits, into out from a place on; the place after them.
fn put_two(number: u16, out: &mut [u8], at: usize) -> usize
    requires { (number < 100) × (at + 2 ≤ length out.old) }
    ensures { Written result out.new out.old at (two_digits number) }
{
    out[at] = b'0' + (number / 10) as u8;
    out[at + 1] = b'0' + (number % 10) as u8;
    at + 2
}

// A number below 100 without a leading zero, into out from a place on; the place after it.
#[tactic(auto, using(crate::proofs::Columns::numbers))]
fn put_low(number: u16, out: &mut [u8], at: usize) -> usize
    requires { (number < 100) × (at + length (decimal_of number) ≤ length out.old) }
    ensures { Written result out.new out.old at (decimal_of number) }
{
    if number < 10 {
        out[at] = b'0' + number as u8;
        return at + 1;
    }
    put_two(number, out, at)
}

// A number into out from a place on; the place after it. By hand below 1000: with `put_decimal` alone an export needs two fifths more
// instructions.
#[tactic(auto, using(crate::proofs::Columns::numbers))]
fn put_digits(number: u16, out: &mut [u8], at: usize) -> usize
    requires { at + length (decimal_of number) ≤ length out.old }
    ensures { Written result out.new out.old at (decimal_of number) }
{
    if number < 100 {
        return put_low(number, out, at);
    }
    if number < 1000 {
        let last = put_two(number / 10, out, at);
        out[last] = b'0' + (number % 10) as u8;
        return last + 1;
    }
    decimals::put_decimal(number as u32, out, at)
}

// A number and the byte that ends its column, into out from a place on; the place after them.
#[tactic(auto, using(gtfs::proofs::RowTexts::length_number_cell))]
pub fn put_number(number: u16, byte: u8, out: &mut [u8], at: usize) -> usize
    requires { at + length (number_cell number byte) ≤ length out.old }
    ensures { Written result out.new out.old at (number_cell number byte) }
{
    let next = put_digits(number, out, at);
    out[next] = byte;
    next + 1
}

// A time and the comma that ends its column, into out from a place on; the place after them.
#[tactic(auto, using(crate::proofs::Columns::times), unfolding(gtfs::specs::Clock::time_text))]
fn put_time(time: u16, out: &mut [u8], at: usize) -> usize
    requires { (time < clock_room) × (at + length (time_cell time comma) ≤ length out.old) }
    ensures { Written result out.new out.old at (time_cell time comma) }
{
    let colon = put_two(time / gtfs::HOUR_MINUTES, out, at);
    out[colon] = b':';
    let next = put_two(time % gtfs::HOUR_MINUTES, out, colon + 1);
    labels::put_text(b":00,", out, next)
}

// A row into out from a place on; the place after it.
#[tactic(auto, using(crate::proofs::Columns::rows))]
pub fn put_row(row: StopTime, out: &mut [u8], at: usize) -> usize
    requires { RowFits row at out.old }
    ensures { Written result out.new out.old at (row_text row) }
{
    let arrival = put_number(row.trip, gtfs::COMMA, out, at);
    let departure = put_time(row.arrival, out, arrival);
    let stop = put_time(row.departure, out, departure);
    let sequence = put_number(row.stop, gtfs::COMMA, out, stop);
    put_number(row.sequence, gtfs::NEWLINE, out, sequence)
}

// How many digits a number has. By hand: with `checked_ilog10` an export needs a fifteenth more instructions.
#[tactic(auto, using(decimals::proofs::Written::writing))]
fn digits(number: u16) -> usize
    ensures { result ≡ length (decimal_of number) }
{
    if number < 100 {
        return if number < 10 { 1 } else { 2 };
    }
    if number < 1000 {
        return 3;
    }
    if number < 10000 { 4 } else { 5 }
}

// How long a row is.
#[tactic(auto, using(decimals::proofs::Digits::digits_five, gtfs::proofs::RowTexts::length_row))]
pub fn row_length(row: StopTime) -> usize
    ensures { result ≡ length (row_text row) }
{
    digits(row.trip) + digits(row.stop) + digits(row.sequence) + 21
}
