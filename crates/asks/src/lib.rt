// What a posting and a withdrawal ask of their own numbers: refusals 12 to 14 and 25 to 27.
#![tactic(auto)]

ghost use Rattle.std.specs.Prelude.{◌≡◌};
ghost use Rattle.refusals.specs.Answers.{verdict_of};
ghost use Rattle.model.specs.Notices.{rows_of};
ghost use Rattle.model.specs.Parts.{asked_verdict, posting_asks, withdrawal_asks};

use model::Notice;
use notices::{Counted, Posted};
use refusals::{Reason, Refusal};

// No notice has this number.
const NO_NUMBER: u16 = 0;

// Refusals 12, 13, 14, 25 and 26 of a posting where there are n connections, by the notices that stand; a number that stands needs no room.
pub fn posting_verdict(posted: Posted, n: usize, notice: Notice) -> Result<(), Refusal>
    ensures { verdict_of result ≡ asked_verdict (rows_of posted.entry.notices.now) (posting_asks n notice.number notice.connection notice.delay) }
{
    let Notice {
        number,
        connection,
        delay,
    } = notice;
    if number == NO_NUMBER {
        return Err(Refusal(Reason::NoNumber, 0));
    }
    if n <= connection as usize {
        return Err(Refusal(Reason::UnknownConnection, 0));
    }
    if delay < model::LEAST_DELAY {
        return Err(Refusal(Reason::WrongDelay, 0));
    }
    if model::MOST_POSTED < delay {
        return Err(Refusal(Reason::WrongDelay, 0));
    }
    if posted.stands_elsewhere(number, connection) {
        return Err(Refusal(Reason::StandsElsewhere, 0));
    }
    if posted.counted().is_standing(number) {
        return Ok(());
    }
    if model::ROOM <= posted.notices[0] {
        return Err(Refusal(Reason::NoRoom, 0));
    }
    Ok(())
}

// Refusals 12 and 27 of a withdrawal, by the notices that stand.
pub fn withdrawal_verdict(counted: Counted, number: u16) -> Result<(), Refusal>
    ensures { verdict_of result ≡ asked_verdict (rows_of counted.entry.notices.now) (withdrawal_asks number) }
{
    if number == NO_NUMBER {
        return Err(Refusal(Reason::NoNumber, 0));
    }
    if !counted.is_standing(number) {
        return Err(Refusal(Reason::NotStanding, 0));
    }
    Ok(())
}
