// Answer lines written: numbers in, bytes out. A writer's line stands at the front of out, and its length is the answer.
// Each asks for room by a clause of its own: an array's length in the type would ask more of callers, who may lend any area with room, and a
// struct of a written area has to be taken apart before it is lent, see `model::Lent`.
#![tactic(auto)]

ghost use Rattle.std.specs.Prelude.{◌≤◌, length};
ghost use Rattle.labels.specs.Room.{line_room, LineIs};
ghost use Rattle.lines.specs.Lines.{counts_line, posted_line, withdrawn_line, refusal_line, margin_line, why_line};

// The counts of a timetable.
#[tactic(auto, using(crate::proofs::Lengths::parts), unfolding(crate::specs::Lines::counts_line))]
pub fn write_counts(stops: u16, connections: u16, out: &mut [u8]) -> usize
    requires { line_room ≤ length out.old }
    ensures { LineIs result out.new out.old (counts_line stops connections) }
{
    labels::write_pair(b"stops ", stops, b" rides ", connections, out)
}

// A posted notice's number. One function for this line and the next would take the word that they differ by: it is `labels::write_number`.
#[tactic(auto, using(crate::proofs::Lengths::parts), unfolding(crate::specs::Lines::posted_line))]
pub fn write_posted(number: u16, out: &mut [u8]) -> usize
    requires { line_room ≤ length out.old }
    ensures { LineIs result out.new out.old (posted_line number) }
{
    labels::write_number(b"posted ", number as u32, out)
}

// A withdrawn notice's number.
#[tactic(auto, using(crate::proofs::Lengths::parts), unfolding(crate::specs::Lines::withdrawn_line))]
pub fn write_withdrawn(number: u16, out: &mut [u8]) -> usize
    requires { line_room ≤ length out.old }
    ensures { LineIs result out.new out.old (withdrawn_line number) }
{
    labels::write_number(b"withdrawn ", number as u32, out)
}

// A refusal's number and place.
#[tactic(auto, using(crate::proofs::Lengths::parts), unfolding(crate::specs::Lines::refusal_line))]
pub fn write_refusal(number: u16, place: u16, out: &mut [u8]) -> usize
    requires { line_room ≤ length out.old }
    ensures { LineIs result out.new out.old (refusal_line number place) }
{
    labels::write_pair(b"no ", number, b" at ", place, out)
}

// A margin in minutes.
#[tactic(auto, using(crate::proofs::Lengths::parts, crate::proofs::Signed::margin_minus, crate::proofs::Signed::margin_plus))]
pub fn write_margin(minutes: i32, out: &mut [u8]) -> usize
    requires { line_room ≤ length out.old }
    ensures { LineIs result out.new out.old (margin_line minutes) }
{
    let number = minutes.unsigned_abs();
    if minutes < 0 {
        return labels::write_number(b"margin -", number, out);
    }
    labels::write_number(b"margin ", number, out)
}

// A connection's primary delay and the notice that gives it.
#[tactic(auto, using(crate::proofs::Lengths::parts), unfolding(crate::specs::Lines::why_line))]
pub fn write_why(connection: u16, delay: u16, notice: u16, out: &mut [u8]) -> usize
    requires { line_room ≤ length out.old }
    ensures { LineIs result out.new out.old (why_line connection delay notice) }
{
    let next = labels::put_labelled(b"why ", connection as u32, out, 0);
    labels::put_pair(b" delay ", delay, b" notice ", notice, out, next)
}
