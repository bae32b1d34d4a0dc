// The dialogue of the desk: the lines of a block in, the lines of their answers out. No input and no output.
#![tactic(auto)]

ghost use Rattle.std.specs.Prelude.{◌≤◌, length};
ghost use Rattle.timetable.specs.Check.{max_connections};
ghost use Rattle.model.specs.Day.{day_of, lent};
ghost use Rattle.turns.specs.Turns.{state};
ghost use Rattle.dialogue.specs.Worked.{Progressed};

// Room for the longest answer, a journey's: `answer_room`.
pub const ANSWER_ROOM: usize = arrivals::EMPTY_JOURNEY_ROOM
    + arrivals::CONNECTION_ROOM * timetable::MAX_CONNECTIONS;

// How far a block is worked, how many bytes the answers have, and whether there is no room for another: both numbers stand in either case,
// so that a Result or an Option would be no plainer.
#[derive(Clone, Copy)]
pub struct Progress {
    pub at: usize,
    pub size: usize,
    pub full: bool,
}

// Works the lines of a block that a newline ends, one after the other, as far as out has room for their answers, which stand at its
// front.
pub fn work_block(
    file: &[u8],
    notices: &mut [u16],
    graph: &mut [u16],
    work: &mut [u16],
    journey: &mut [u16],
    out: &mut [u8],
    block: &[u8],
) -> Progress
    requires { length journey.old ≤ max_connections }
    ensures { Progressed (day_of file.now)
        (state (lent notices.old graph.old) work.old journey.old)
        (state (lent notices.new graph.new) work.new journey.new)
        block.now result out.new out.old }
{
    let mut at = 0;
    let mut size = 0;
    while let Some(end) = input::whole_end(block, at) {
        if out.len() - size < ANSWER_ROOM {
            return Progress {
                at,
                size,
                full: true,
            };
        }
        size += turns::work_line(
            file,
            notices,
            graph,
            work,
            journey,
            &mut out[size..],
            &block[at..end],
        );
        at = end;
    }
    Progress {
        at,
        size,
        full: false,
    }
}
