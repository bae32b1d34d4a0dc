// Why a connection is late: its primary delay and the notice that gives it.
#![tactic(auto)]

ghost use Rattle.std.specs.Prelude.{◌≡◌, ◌<◌};
ghost use Rattle.refusals.specs.Answers.{told, verdict_of};
ghost use Rattle.timetable.specs.Check.{max_connections};
ghost use Rattle.model.specs.Notices.{rows_of};
ghost use Rattle.model.specs.Operations.{why_verdict, explained};
ghost use Rattle.model.specs.Times.{primary_delay};

use model::PrimaryDelay;
use notices::Counted;
use refusals::{Reason, Refusal};

// Refusals 21, 23 and 13.
fn why_verdict(notices: &[u16], connections: usize, connection: u16) -> Result<(), Refusal>
    ensures { verdict_of result ≡ why_verdict connections notices.now connection }
{
    if notices.len() < model::NOTICES_LENGTH {
        return Err(Refusal(Reason::ShortNotices, 0));
    }
    rows::check_rows(notices, connections)?;
    if connections <= connection as usize {
        return Err(Refusal(Reason::UnknownConnection, 0));
    }
    Ok(())
}

// The primary delay of connection c by the notices that stand.
fn primary_delay(counted: Counted, c: usize) -> PrimaryDelay
    requires { c < max_connections }
    ensures { result ≡ primary_delay c (rows_of counted.entry.notices.now) }
{
    // no heap: room for the most connections
    let mut primaries = [0u32; timetable::MAX_CONNECTIONS];
    delays::standing_delays(counted, &mut primaries);
    delays::primary_in(primaries[c])
}

// Why a connection is late.
pub fn why(file: &[u8], notices: &[u16], connection: u16) -> Result<PrimaryDelay, Refusal>
    ensures { told result ≡ explained file.now notices.now connection }
{
    // no `?`: document 01 has the file check's answer opened by `let .. else`
    let opened = acceptance::open(file);
    let Ok(timetable) = opened else {
        return Err(opened.unwrap_err());
    };
    why_verdict(notices, timetable.connections, connection)?;
    Ok(primary_delay(Counted { notices }, connection as usize))
}
