// The library's answers as numbers for C. An answer is number + 65536 * value: the number is 0 for an accepted call, else the
// refusal's, with its place for a value.
#![tactic(auto)]

ghost use Rattle.std.specs.Prelude.{◌≡◌, ℕ, is_ok};
ghost use Rattle.refusals.specs.Answers.{is_accepted, told};
ghost use Rattle.codes.specs.Encoded.{pair, code_in, coded_with, coded_margin, counts_value, arrival_value, primary_value};

use model::{Arrival, PrimaryDelay};
use refusals::Refusal;
use timetable::Counts;

// How many values a number of 16 bits has.
const NUMBER_SIZE: u64 = 65536;

// The same, for signed minutes.
const SIGNED_SIZE: i64 = 65536;

// An answer's number, and the two halves of its value.
fn answer_of(number: u16, low: u16, high: u16) -> u64
    ensures { result ≡ pair number (pair low high) }
{
    number as u64 + NUMBER_SIZE * (low as u64 + NUMBER_SIZE * high as u64)
}

// What an accepted call answers, as one value of two halves.
pub trait Halves {
    ghost value: { Self → ℕ };

    // The low half and the high one.
    fn halves(self) -> (u16, u16)
        ensures { pair result.0 result.1 ≡ value self };
}

// A check's and a building's: how many stops and connections.
impl Halves for Counts {
    ghost value = { counts_value };

    fn halves(self) -> (u16, u16) {
        (self.stops, self.connections)
    }
}

// A posting's and a withdrawal's: the notice's number.
impl Halves for u16 {
    ghost value = { λ number. number };

    fn halves(self) -> (u16, u16) {
        (self, 0)
    }
}

// An enquiry's: the arrival and how many connections.
impl Halves for Arrival {
    ghost value = { arrival_value };

    fn halves(self) -> (u16, u16) {
        (self.time, self.connections)
    }
}

// Why's: the delay and the notice that gives it.
impl Halves for PrimaryDelay {
    ghost value = { primary_value };

    fn halves(self) -> (u16, u16) {
        (self.delay, self.notice)
    }
}

// An answer with a value of two halves.
pub fn code<V: Halves>(answer: Result<V, Refusal>) -> u64
    ensures { result ≡ coded_with V.value (told answer) }
{
    match answer {
        Ok(value) => {
            let (low, high) = value.halves();
            answer_of(0, low, high)
        }
        Err(Refusal(reason, place)) => answer_of(reason.number(), place, 0),
    }
}

// The same, an accepted call's code apart from a refusal's.
pub fn code_apart<V: Halves>(answer: Result<V, Refusal>) -> Result<u64, u64>
    ensures code { code_in result ≡ coded_with V.value (told answer) }
    ensures accepted { is_ok result ≡ is_accepted (told answer) }
{
    match answer {
        Ok(_) => Ok(code(answer)),
        Err(_) => Err(code(answer)),
    }
}

// The answer of a margin.
pub fn code_margin(answer: Result<i32, Refusal>) -> i64
    ensures { result ≡ coded_margin (told answer) }
{
    match answer {
        Ok(minutes) => SIGNED_SIZE * minutes as i64,
        Err(Refusal(reason, place)) => answer_of(reason.number(), place, 0) as i64,
    }
}
