// Timetables as stop_times.txt of the General Transit Feed Specification: what such a text is, the file of a text and the text of a
// file (specs/), with the laws that give them their meaning (proofs/). The code here is types and names.
#![tactic(auto)]

use refusals::Refusal;

// What stands between the columns of a row, and what ends it: `comma` and `newline`.
pub const COMMA: u8 = b',';

pub const NEWLINE: u8 = b'\n';

// The first line, with its newline: `header_text`.
pub const HEADER_TEXT: &[u8] = b"trip_id,arrival_time,departure_time,stop_id,stop_sequence\n";

// The minutes of an hour: `hour_minutes`.
pub const HOUR_MINUTES: u16 = 60;

// A row of the text, in the order of its columns.
#[derive(Clone, Copy, Debug, PartialEq, Eq)]
pub struct StopTime {
    pub trip: u16,
    pub arrival: u16,
    pub departure: u16,
    pub stop: u16,
    pub sequence: u16,
}

// The answer of an import or an export: how many bytes were written, or the refusal, whose place can pass 16 bits as they can.
pub type Converted = Result<usize, Refusal<usize>>;
