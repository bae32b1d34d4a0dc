// The transfer entries of a handed-in graph area, each checked by the marks of its links.
#![tactic(auto)]

ghost use Rattle.std.specs.Prelude.{◌≡◌, ◌<◌, length};
ghost use Rattle.changes.specs.Changes.{ChangeTold};

use boards::Shown;

// A timetable, a graph area and marks of its links, one for each connection and one for each board.
#[derive(Clone, Copy)]
pub struct Marked<'a> {
    pub shown: Shown<'a>,
    pub marks: &'a [u16],
    pub lasts: &'a [u16],
    ghost marks_long: { length marks.now ≡ shown.timetable.connections },
    ghost lasts_long: { length lasts.now ≡ shown.timetable.stops },
}

impl Marked<'_> {
    // Whether the transfer entry of connection c is right by the marks.
    pub fn change_right(self, c: usize) -> bool
        requires { c < self.shown.timetable.connections }
        ensures { ChangeTold self.entry.shown.timetable.file.now self.entry.shown.graph.now self.entry.marks.now self.entry.lasts.now c result }
    {
        let shown = self.shown;
        let stop = shown.timetable.to(c);
        let ready = shown.ready(c);
        let e = shown.transfer(c);
        let d = e as usize;
        if shown.timetable.connections <= d {
            if e != model::NONE {
                return false;
            }
            return self.lasts[stop as usize] <= ready;
        }
        if shown.board(d) != stop {
            return false;
        }
        if shown.departure(d) < ready {
            return false;
        }
        self.marks[d] <= ready
    }
}
