// The line of an arrival written: the time and the connections of the journey in, bytes out.
#![tactic(auto)]

ghost use Rattle.std.specs.Prelude.{◌+◌, ◌≤◌, length};
ghost use Rattle.decimals.specs.Written.{Written};
ghost use Rattle.labels.specs.Room.{LineIs};
ghost use Rattle.arrivals.specs.Arrivals.{journey_text, arrives_line};
ghost use Rattle.arrivals.specs.Room.{arrival_room};

// The room for the line of an empty journey, and for each of a journey's connections: `empty_journey_room` and `connection_room`.
pub const EMPTY_JOURNEY_ROOM: usize = 17;

pub const CONNECTION_ROOM: usize = 6;

// The connections of a journey into out from a place on, each after a space; the place after them.
#[tactic(auto, using(crate::proofs::Lengths::next_room), unfolding(crate::specs::Arrivals::journey_text))]
fn put_journey(journey: &[u16], out: &mut [u8], at: usize) -> usize
    requires { at + length (journey_text journey.now) ≤ length out.old }
    ensures { Written result out.new out.old at (journey_text journey.now) }
{
    let mut next = at;
    for connection in journey {
        next = labels::put_labelled(b" ", *connection as u32, out, next);
    }
    next
}

// An arrival and the connections of the journey.
#[tactic(auto, using(decimals::proofs::Digits::digits_five, crate::proofs::Lengths::journey_room))]
pub fn write_arrival(time: u16, journey: &[u16], out: &mut [u8]) -> usize
    requires { arrival_room (length journey.now) ≤ length out.old }
    ensures { LineIs result out.new out.old (arrives_line time journey.now) }
{
    let a = labels::put_labelled(b"arrives ", time as u32, out, 0);
    let b = labels::put_text(b" by", out, a);
    let c = put_journey(journey, out, b);
    labels::put_text(b"\n", out, c)
}
