// The links of a handed-in graph area, its first departures and waiting entries, each checked by itself. A mark for each connection
// says by which link it is reached, a mark for each board which departure is not followed by another.
#![tactic(auto)]

ghost use Rattle.std.specs.Prelude.{◌≡◌, ◌<◌, ltb};
ghost use Rattle.model.specs.Least.{key};
ghost use Rattle.model.specs.Graph.{departure_in};
ghost use Rattle.links.specs.Telling.{Tells, FirstsLinked, FirstTold, NextsLinked, NextTold, NoneMissed};

use boards::Shown;

// Whether the first departure of board b is none or is on b; it is marked as a first one.
pub fn link_first(shown: Shown, b: usize, marks: &mut [u16]) -> bool
    requires { (b < shown.timetable.stops) × FirstsLinked shown.timetable.file.now shown.graph.now b marks.old }
    ensures { FirstTold shown.entry.timetable.file.now shown.entry.graph.now b result marks.new }
{
    let e = shown.first_departure(b);
    let d = e as usize;
    if shown.timetable.connections <= d {
        return e == model::NONE;
    }
    if shown.board(d) as usize != b {
        return false;
    }
    marks[d] = 0;
    true
}

// Whether connection d departs after c: later, or in the same minute with a higher number.
fn is_after(shown: Shown, c: usize, d: usize) -> bool
    requires { (c < shown.timetable.connections) × (d < shown.timetable.connections) }
    ensures { result ≡ ltb (key (departure_in shown.entry.graph.now) c) (key (departure_in shown.entry.graph.now) d) }
{
    let own = shown.departure(c);
    let next = shown.departure(d);
    own < next || own == next && c < d
}

// Whether the waiting entry of connection c is none or is on the same board and leaves after c; it is marked with c's departure,
// or the board is if there is none. The two lists of marks are no struct here: link_first writes one alone.
pub fn link_next(shown: Shown, c: usize, marks: &mut [u16], lasts: &mut [u16]) -> bool
    requires { (c < shown.timetable.connections)
        × NextsLinked shown.timetable.file.now shown.graph.now shown.timetable.stops c marks.old lasts.old }
    ensures { NextTold shown.entry.timetable.file.now shown.entry.graph.now shown.entry.timetable.stops c result marks.new lasts.new }
{
    let board = shown.board(c);
    let departure = shown.departure(c);
    let e = shown.waiting(c);
    let d = e as usize;
    if shown.timetable.connections <= d {
        if e != model::NONE {
            return false;
        }
        lasts[board as usize] = departure + 1;
        return true;
    }
    if shown.board(d) != board {
        return false;
    }
    if !is_after(shown, c, d) {
        return false;
    }
    marks[d] = departure + 1;
    true
}

// Whether no mark is none. The library looks at several marks at once.
pub fn all_marked(marks: &[u16]) -> bool
    ensures { Tells result (NoneMissed marks.now) }
{
    !marks.contains(&model::NONE)
}
