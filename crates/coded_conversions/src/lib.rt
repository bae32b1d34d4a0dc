// Import and export with their answers as numbers for C: number + 65536 * value, as those of the other operations.
#![tactic(auto)]

ghost use Rattle.std.specs.Prelude.{◌≡◌};
ghost use Rattle.gtfs.specs.Conversions.{imported, exported};
ghost use Rattle.refusals.specs.Answers.{told};
ghost use Rattle.coded_conversions.specs.Coded.{coded_bytes, ConversionCoded};

use gtfs::Converted;
use refusals::Refusal;

// How many values a number of 16 bits has, and the value of an answer: `number_size` and `value_size`.
const NUMBER_SIZE: u64 = 65536;

const VALUE_SIZE: u64 = 281474976710656;

// The answer of an import or an export.
fn code_converted(converted: Converted) -> u64
    ensures { result ≡ coded_bytes (told converted) }
{
    match converted {
        Ok(bytes) => NUMBER_SIZE * (bytes as u64 % VALUE_SIZE),
        Err(Refusal(reason, place)) => reason.number() as u64
            + NUMBER_SIZE * (place as u64 % VALUE_SIZE),
    }
}

// The timetable file of stop_times.txt and of each stop's transfer time.
#[tactic(auto, using(crate::proofs::Coded::conversion_coded))]
pub fn import_coded(text: &[u8], change: &[u8], file: &mut [u8]) -> u64
    ensures { ConversionCoded (imported text.now change.now file.old) result file.new }
{
    code_converted(imports::import(text, change, file))
}

// stop_times.txt of a timetable file.
#[tactic(auto, using(crate::proofs::Coded::conversion_coded))]
pub fn export_coded(file: &[u8], text: &mut [u8]) -> u64
    ensures { ConversionCoded (exported file.now text.old) result text.new }
{
    code_converted(exports::export(file, text))
}
