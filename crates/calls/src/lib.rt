// A posting or a withdrawal: what it asks, what it does to the notices and the number that it answers.
#![tactic(auto)]

ghost use Rattle.std.specs.Prelude.{◌≡◌};
ghost use Rattle.refusals.specs.Answers.{verdict_of, Passed};
ghost use Rattle.model.specs.Notices.{area_with, rows_of, Standing};
ghost use Rattle.model.specs.Parts.{asked_verdict};
ghost use Rattle.calls.specs.Call.{asks_of, standing_after, number_in};

use model::Notice;
use notices::Posted;
use refusals::Refusal;

// A posting of a notice, or a withdrawal of a number.
#[derive(Clone, Copy)]
pub enum Call {
    Post(Notice),
    Withdraw(u16),
}

// A function for each question to a call: a closure for each of the two cases would be no plainer.

// Whether a call passes what it asks of its own numbers, by the notices that stand.
pub fn call_verdict(posted: Posted, n: usize, call: Call) -> Result<(), Refusal>
    ensures { verdict_of result ≡ asked_verdict (rows_of posted.entry.notices.now) (asks_of n call) }
{
    match call {
        Call::Post(notice) => asks::posting_verdict(posted, n, notice),
        Call::Withdraw(number) => asks::withdrawal_verdict(posted.counted(), number),
    }
}

// The notice of a call entered or struck out. What stands is asked of the area by a clause, as in amendments.
pub fn note_call(notices: &mut [u16], n: usize, call: Call)
    requires { Standing n notices.old × (asked_verdict (rows_of notices.old) (asks_of n call) ≡ Passed) }
    ensures { notices.new ≡ area_with (standing_after call (rows_of notices.old)) notices.old }
{
    match call {
        Call::Post(notice) => amendments::enter(notices, notice),
        Call::Withdraw(number) => amendments::strike(notices, number),
    }
}

// The number of a call's notice.
pub fn number_of(call: Call) -> u16
    ensures { result ≡ number_in call }
{
    match call {
        Call::Post(notice) => notice.number,
        Call::Withdraw(number) => number,
    }
}
