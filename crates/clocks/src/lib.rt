// A time of day read.
#![tactic(auto)]

ghost use Rattle.std.specs.Prelude.{◌≡◌};
ghost use Rattle.gtfs.specs.Clock.{time_of};

// A word as a time, where it is one: hours, then :MM:00.
#[tactic(auto, using(gtfs::proofs::ClockBytes::clock_words))]
pub fn read_time(word: &[u8]) -> Option<u16>
    ensures { result ≡ time_of word.now }
{
    let [
        hours @ ..,
        b':',
        tens @ b'0'..=b'5',
        ones @ b'0'..=b'9',
        b':',
        b'0',
        b'0',
    ] = word
    else {
        return None;
    };
    if 2 < hours.len() {
        return None;
    }
    let h = decimals::read_number(hours)?;
    Some(gtfs::HOUR_MINUTES * h + 10 * u16::from(*tens - b'0') + u16::from(*ones - b'0'))
}
