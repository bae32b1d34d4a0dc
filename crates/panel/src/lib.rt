// The library's operations for C, over areas of bytes, with their answers as numbers. Where two functions differ by their operation alone, the
// C interface needs each under its own name, with its own types.
#![tactic(auto)]

ghost use Rattle.std.specs.Prelude.{◌≡◌};
ghost use Rattle.numbers.specs.Numbers.{numbers_of};
ghost use Rattle.timetable.specs.Check.{checked_answer};
ghost use Rattle.model.specs.Day.{day_of};
ghost use Rattle.model.specs.Operations.{built, posted, withdrawn, enquired, margined, explained};
ghost use Rattle.gtfs.specs.Conversions.{imported, exported};
ghost use Rattle.coded_conversions.specs.Coded.{ConversionCoded};
ghost use Rattle.codes.specs.Encoded.{coded, coded_counts, coded_margin, coded_primary};
ghost use Rattle.fronts.specs.Fronts.{lent_bytes};
ghost use Rattle.coded_updates.specs.Updated.{coded_by, OutcomeBytes};
ghost use Rattle.enquiries.specs.Enquired.{EnquiryBytes};

use model::{Change, Notice, Request};
use updates::Update;

// Checks a file.
#[unsafe(no_mangle)]
pub extern "C" fn ttg_check(file: &[u8]) -> u64
    ensures { result ≡ coded_counts (checked_answer file.now) }
{
    codes::code(acceptance::check(file))
}

// An empty notice area and the graph without notices.
#[unsafe(no_mangle)]
pub extern "C" fn ttg_build(file: &[u8], notices: &mut [u8], graph: &mut [u8]) -> u64
    ensures { OutcomeBytes
        (coded_by coded_counts (built (day_of file.now) (lent_bytes notices.old graph.old)))
        notices.old graph.old result notices.new graph.new }
{
    updates::update_bytes(file, notices, graph, Update::Build)
}

// A notice posted.
#[unsafe(no_mangle)]
pub extern "C" fn ttg_post(
    file: &[u8],
    notices: &mut [u8],
    graph: &mut [u8],
    number: u16,
    ride: u16,
    delay: u16,
) -> u64
    ensures { OutcomeBytes
        (coded_by coded
        (posted (day_of file.now) (lent_bytes notices.old graph.old) number ride delay))
        notices.old graph.old result notices.new graph.new }
{
    let notice = Notice {
        number,
        connection: ride,
        delay,
    };
    updates::update_bytes(file, notices, graph, Update::Post(notice))
}

// A notice withdrawn.
#[unsafe(no_mangle)]
pub extern "C" fn ttg_withdraw(
    file: &[u8],
    notices: &mut [u8],
    graph: &mut [u8],
    number: u16,
) -> u64
    ensures { OutcomeBytes
        (coded_by coded
        (withdrawn (day_of file.now) (lent_bytes notices.old graph.old) number))
        notices.old graph.old result notices.new graph.new }
{
    updates::update_bytes(file, notices, graph, Update::Withdraw(number))
}

// The journey that arrives first, and the predecessor of each connection.
#[unsafe(no_mangle)]
pub extern "C" fn ttg_enquire(
    file: &[u8],
    notices: &[u8],
    graph: &[u8],
    work: &mut [u8],
    journey: &mut [u8],
    from: u16,
    to: u16,
    time: u16,
) -> u64
    ensures { EnquiryBytes
        (enquired (day_of file.now) (lent_bytes notices.now graph.now)
        (numbers_of work.old) (numbers_of journey.old) from to time)
        work.old journey.old result work.new journey.new }
{
    let request = Request { from, to, time };
    enquiries::enquire_bytes(file, notices, graph, work, journey, request)
}

// The margin of a change from connection `ride` to connection `next`.
#[unsafe(no_mangle)]
pub extern "C" fn ttg_margin(file: &[u8], notices: &[u8], graph: &[u8], ride: u16, next: u16) -> i64
    ensures { result
        ≡ coded_margin
        (margined (day_of file.now) (lent_bytes notices.now graph.now) ride next) }
{
    let change = Change {
        connection: ride,
        next,
    };
    byte_margins::margin_bytes(file, notices, graph, change)
}

// Why connection `ride` is late: its primary delay and the notice that gives it.
#[unsafe(no_mangle)]
pub extern "C" fn ttg_why(file: &[u8], notices: &[u8], ride: u16) -> u64
    ensures { result ≡ coded_primary (explained file.now (numbers_of notices.now) ride) }
{
    byte_causes::why_bytes(file, notices, ride)
}

// The timetable file of stop_times.txt and of each stop's transfer time.
#[unsafe(no_mangle)]
pub extern "C" fn ttg_import(text: &[u8], change: &[u8], file: &mut [u8]) -> u64
    ensures { ConversionCoded (imported text.now change.now file.old) result file.new }
{
    coded_conversions::import_coded(text, change, file)
}

// stop_times.txt of a timetable file.
#[unsafe(no_mangle)]
pub extern "C" fn ttg_export(file: &[u8], text: &mut [u8]) -> u64
    ensures { ConversionCoded (exported file.now text.old) result text.new }
{
    coded_conversions::export_coded(file, text)
}
