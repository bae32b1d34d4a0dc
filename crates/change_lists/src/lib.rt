// The transfer times of stops as a text: one decimal a line, the place being the stop.
#![tactic(auto)]

ghost use Rattle.std.specs.Prelude.{◌*◌, ◌≤◌, length};
ghost use Rattle.labels.specs.Room.{LineIs};
ghost use Rattle.change_lists.specs.ChangeText.{ChangesRead, changes_text};

use timetable::Timetable;

// The numbers of a text, one decimal a line, at the front of an area of bytes: how many bytes, or the first line, from 1 on, that is no
// decimal.
#[tactic(auto, using(crate::proofs::Lines::lines))]
pub fn read_changes(text: &[u8], change: &mut [u8]) -> Result<usize, usize>
    requires { length text.now ≤ length change.old }
    ensures { ChangesRead result change.new change.old text.now }
{
    let mut line = 0;
    let mut at = 0;
    while let Some((n, next)) = cuts::column(text, at, gtfs::NEWLINE, decimals::read_number) {
        change[2 * line..2 * line + 2].copy_from_slice(&n.to_le_bytes());
        line += 1;
        at = next;
    }
    if at < text.len() {
        return Err(line + 1);
    }
    Ok(2 * line)
}

// The transfer times of a timetable's stops, one decimal a line, at the front of an area; how many bytes.
pub fn write_changes(timetable: Timetable, out: &mut [u8]) -> usize
    requires { 3 * timetable.stops ≤ length out.old }
    ensures { LineIs result out.new out.old (changes_text timetable.entry.file.now) }
{
    let mut at = 0;
    for stop in 0..timetable.stops {
        at = row_texts::put_number(timetable.transfer_time(stop), gtfs::NEWLINE, out, at);
    }
    at
}
