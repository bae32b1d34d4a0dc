// What the desk says to a line of a dispatcher, and what it has afterwards: a turn of the dialogue. No input and no output.
#![tactic(auto)]

ghost use Rattle.model.specs.Day.{day_of, lent};
ghost use Rattle.commands.specs.Commands.{command_of};
ghost use Rattle.written_replies.specs.Said.{OutRoom};
ghost use Rattle.turns.specs.Turns.{state, turn_of};
ghost use Rattle.turns.specs.Worked.{Performed, Worked};

use meanings::Command;
use model::Lent;
use refusals::{Reason, Refusal};
use written_replies::Reply;

// Works a command; what is said to it.
fn perform(
    file: &[u8],
    notices: &mut [u16],
    graph: &mut [u16],
    work: &mut [u16],
    journey: &mut [u16],
    command: Command,
) -> Result<Reply, Refusal>
    ensures { Performed result (state (lent notices.new graph.new) work.new journey.new)
        (turn_of (day_of file.now)
        (state (lent notices.old graph.old) work.old journey.old) (Some command)) }
{
    // Each case has its own operation and arguments: a closure for each would be no plainer.
    match command {
        Command::Post(notice) => graph::post(file, notices, graph, notice).map(Reply::Posted),
        Command::Withdraw(number) => {
            graph::withdraw(file, notices, graph, number).map(Reply::Withdrawn)
        }
        Command::Enquire(request) => {
            search::enquire(file, Lent { notices, graph }, work, journey, request).map(
                Reply::Arrives,
            )
        }
        Command::Margin(change) => {
            search::margin(file, Lent { notices, graph }, change).map(Reply::Margin)
        }
        Command::Why(connection) => {
            graph::why(file, notices, connection).map(|primary| Reply::Why(connection, primary))
        }
    }
}

// Works a line; the length of the answer, which stands at the front of out. The room is asked as `write_reply` asks it: a struct of out with
// its room as a ghost field would be made by the one caller from the same fact, and taken apart here.
pub fn work_line(
    file: &[u8],
    notices: &mut [u16],
    graph: &mut [u16],
    work: &mut [u16],
    journey: &mut [u16],
    out: &mut [u8],
    line: &[u8],
) -> usize
    requires { OutRoom journey.old out.old }
    ensures { Worked result out.new out.old
        (state (lent notices.new graph.new) work.new journey.new)
        (turn_of (day_of file.now)
        (state (lent notices.old graph.old) work.old journey.old)
        (command_of line.now)) }
{
    let reply = match commands::read_command(line) {
        Some(command) => perform(file, notices, graph, work, journey, command),
        None => Err(Refusal(Reason::Unreadable, 0)),
    };
    written_replies::write_reply(reply, journey, out)
}
