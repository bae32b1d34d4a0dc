// Numbers in decimal: a word read as a number, a number written into an area.
#![tactic(auto)]

ghost use Rattle.std.specs.Prelude.{◌≡◌, ◌+◌, ◌≤◌, length};
ghost use Rattle.decimals.specs.Decimal.{decimal, decimal_of};
ghost use Rattle.decimals.specs.Written.{Written};

// How many digits a word may have: `max_digits`.
const MAX_DIGITS: usize = 5;

// A word as a number, where it is one. Not by `parse`: it takes a leading + and any number of zeros.
#[tactic(auto, using(crate::proofs::Reading::reading))]
pub fn read_number(word: &[u8]) -> Option<u16>
    ensures { result ≡ decimal word.now }
{
    if word.is_empty() || MAX_DIGITS < word.len() {
        return None;
    }
    let mut value: u32 = 0;
    for byte in word {
        if !byte.is_ascii_digit() {
            return None;
        }
        value = 10 * value + (byte - b'0') as u32;
    }
    u16::try_from(value).ok()
}

// A number in decimal into out from a place on; the place after it. Digit by digit: a write into a slice by the library can fail and tells
// no place, and `itoa` writes from the last digit to the first, so that the digits would be counted before or copied after.
#[tactic(auto, using(crate::proofs::Written::writing))]
pub fn put_decimal(number: u32, out: &mut [u8], at: usize) -> usize
    requires { at + length (decimal_of number) ≤ length out.old }
    ensures { Written result out.new out.old at (decimal_of number) }
{
    let digit = b'0' + (number % 10) as u8;
    if number < 10 {
        out[at] = digit;
        return at + 1;
    }
    let last = put_decimal(number / 10, out, at);
    out[last] = digit;
    last + 1
}
