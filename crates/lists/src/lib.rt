// The filler of the waiting entries, in linear time. A sweep over the departures from the last to the first keeps the head of each
// board and fills the entries.
#![tactic(auto)]

ghost use Rattle.std.specs.Prelude.{◌≡◌, length};
ghost use Rattle.lists.specs.Lists.{DepartedBySome, WaitingBy};

use timetable::Timetable;

// The waiting entries to their part, in the order of departures from the last down: the head of its board is c's waiting entry, and from
// then on c is the head. Memory is fixed, without a heap: the heads stand in an array.
pub fn fill_waiting(timetable: Timetable, departed: &[u16], part: &mut [u16])
    requires { DepartedBySome timetable.file.now departed.now × (length part.old ≡ timetable.connections) }
    ensures { WaitingBy timetable.entry.file.now departed.now part.new }
{
    let mut heads = [model::NONE; timetable::MAX_STOPS];
    let heads = &mut heads[..timetable.stops];
    for &c in departed {
        let board = boards::departure_board(timetable, c as usize) as usize;
        part[c as usize] = heads[board];
        heads[board] = c;
    }
}
