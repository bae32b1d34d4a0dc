// The filler of the transfer entries, in linear time. A sweep from the last event down keeps the head of each board and fills the
// entries. It leaves the first departures, and the departures from the last to the first.
#![tactic(auto)]

ghost use Rattle.std.specs.Prelude.{◌≡◌, ◌+◌, ◌≤◌, length};
ghost use Rattle.transfers.specs.Transfers.{OrderedBySome, TransfersBy};

use timetable::Timetable;

// The transfer entries to their part, in the order of events from the last down. `heads` is made none everywhere and ends as the
// first departures; `departed` gets the departures from the last to the first, whose number is returned.
pub fn fill_transfers(
    timetable: Timetable,
    order: &[u16],
    heads: &mut [u16],
    departed: &mut [u16],
    part: &mut [u16],
) -> usize
    requires ordered { OrderedBySome timetable.file.now order.now }
    requires heads_len { (length heads.old ≡ timetable.stops) × (length part.old ≡ timetable.connections)
        × (timetable.connections + timetable.connections ≤ length departed.old) }
    ensures { TransfersBy timetable.entry.file.now order.now result
        heads.new departed.new part.new }
{
    let n = timetable.connections;
    let mut k = 0;
    heads.fill(model::NONE);
    for &event in order[..n + n].iter().rev() {
        let e = event as usize;
        if e < n {
            let stop = timetable.to(e) as usize;
            part[e] = heads[stop];
        } else if e < model::NONE as usize {
            let c = e - n;
            let board = boards::departure_board(timetable, c) as usize;
            heads[board] = c as u16;
            departed[k] = c as u16;
            k += 1;
        }
    }
    k
}
