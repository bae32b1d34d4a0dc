// What the desk says to a command, and the line of it; the line of a building's answer. Room is asked by a clause, as in `lines`: the area is
// written, see `model::Lent`.
#![tactic(auto, unfolding(lines::specs::Lines::text_of))]

ghost use Rattle.std.specs.Prelude.{◌≤◌, length};
ghost use Rattle.refusals.specs.Answers.{number_of, told};
ghost use Rattle.labels.specs.Room.{line_room, LineIs};
ghost use Rattle.lines.specs.Lines.{refusal_line, text_of};
ghost use Rattle.written_replies.specs.Replies.{line_of, say_counts};
ghost use Rattle.written_replies.specs.Said.{OutRoom, line_in, Fits};

use model::{Arrival, PrimaryDelay};
use refusals::Refusal;
use timetable::Counts;

// What the desk says to a command that is not refused.
#[derive(Clone, Copy, Debug, PartialEq, Eq)]
pub enum Reply {
    Arrives(Arrival),
    Posted(u16),
    Withdrawn(u16),
    Margin(i32),
    // the connection, and its primary delay
    Why(u16, PrimaryDelay),
}

// The line of a refusal at the front of out; its length.
pub fn write_refusal(refused: Refusal, out: &mut [u8]) -> usize
    requires { line_room ≤ length out.old }
    ensures { LineIs result out.new out.old (refusal_line (number_of refused.0) refused.1) }
{
    lines::write_refusal(refused.0.number(), refused.1, out)
}

// The line of a reply at the front of out; its length.
pub fn write_reply(reply: Result<Reply, Refusal>, journey: &[u16], out: &mut [u8]) -> usize
    requires { OutRoom journey.now out.old × Fits journey.now (told reply) }
    ensures { LineIs result out.new out.old
        (text_of (line_of (line_in journey.now) (told reply))) }
{
    match reply {
        Ok(Reply::Arrives(arrival)) => {
            arrivals::write_arrival(arrival.time, &journey[..arrival.connections as usize], out)
        }
        Ok(Reply::Posted(number)) => lines::write_posted(number, out),
        Ok(Reply::Withdrawn(number)) => lines::write_withdrawn(number, out),
        Ok(Reply::Margin(minutes)) => lines::write_margin(minutes, out),
        Ok(Reply::Why(connection, primary)) => {
            lines::write_why(connection, primary.delay, primary.notice, out)
        }
        Err(refused) => write_refusal(refused, out),
    }
}

// The line of a building's answer at the front of out; its length.
pub fn write_built(built: Result<Counts, Refusal>, out: &mut [u8]) -> usize
    requires { line_room ≤ length out.old }
    ensures { LineIs result out.new out.old (text_of (line_of say_counts (told built))) }
{
    match built {
        Ok(counts) => lines::write_counts(counts.stops, counts.connections, out),
        Err(refusal) => write_refusal(refusal, out),
    }
}
