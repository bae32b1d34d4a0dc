// The check of a notice area's rows: refusal 23.
#![tactic(auto)]

ghost use Rattle.std.specs.Prelude.{◌≡◌, ◌≤◌, length};
ghost use Rattle.refusals.specs.Answers.{verdict_of};
ghost use Rattle.model.specs.Notices.{notices_length, stands_right, standing_verdict, unused_verdict, rows_verdict};
ghost use Rattle.rows.specs.Rows.{all_zero};

use model::{LEAST_DELAY, MOST_STANDING, NOTICES_LENGTH, Notice, ROOM, WIDTH};
use notices::Counted;
use refusals::{Reason, Refusal};

// Whether a row may stand after a row of the number before.
#[tactic(auto, unfolding(model::specs::Notices::stands_right))]
fn stands_right(n: usize, before: u16, row: Notice) -> bool
    ensures { result ≡ stands_right n before row }
{
    before < row.number
        && (row.connection as usize) < n
        && LEAST_DELAY <= row.delay
        && row.delay <= MOST_STANDING
}

// Refusal 23 of the rows that stand.
fn check_standing(counted: Counted, n: usize) -> Result<(), Refusal>
    ensures { verdict_of result ≡ standing_verdict n counted.entry.notices.now }
{
    let notices = counted.notices;
    let mut before = 0;
    for k in 0..notices[0] {
        let row = notices::row_at(notices, 1 + WIDTH * k as usize);
        if !stands_right(n, before, row) {
            return Err(Refusal(Reason::WrongRow, k + 1));
        }
        before = row.number;
    }
    Ok(())
}

// Whether all numbers are 0. Every number is looked at, so that several are looked at once.
fn all_zero(xs: &[u16]) -> bool
    ensures { result ≡ all_zero xs.now }
{
    let mut all = true;
    for x in xs {
        if *x != 0 {
            all = false;
        }
    }
    all
}

// Refusal 23 of the other rows, one by one.
fn first_used(counted: Counted) -> Result<(), Refusal>
    ensures { verdict_of result ≡ unused_verdict counted.entry.notices.now }
{
    let notices = counted.notices;
    for k in notices[0]..ROOM {
        let at = 1 + WIDTH * k as usize;
        if !all_zero(&notices[at..at + WIDTH]) {
            return Err(Refusal(Reason::WrongRow, k + 1));
        }
    }
    Ok(())
}

// Refusal 23 of the other rows: all at once, and one by one for the place of the first wrong one.
fn check_unused(counted: Counted) -> Result<(), Refusal>
    ensures { verdict_of result ≡ unused_verdict counted.entry.notices.now }
{
    let notices = counted.notices;
    let start = 1 + WIDTH * notices[0] as usize;
    if all_zero(&notices[start..NOTICES_LENGTH]) {
        return Ok(());
    }
    first_used(counted)
}

// Refusal 23 of a notice area, with its place.
pub fn check_rows(notices: &[u16], n: usize) -> Result<(), Refusal>
    requires { notices_length ≤ length notices.now }
    ensures { verdict_of result ≡ rows_verdict n notices.now }
{
    if ROOM < notices[0] {
        return Err(Refusal(Reason::WrongRow, 0));
    }
    let counted = Counted { notices };
    check_standing(counted, n)?;
    check_unused(counted)
}
