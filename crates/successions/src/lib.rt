// A connection of a timetable file tested against the one before it, in one answer: whether neither 9 nor 11 refuses.
#![tactic(auto)]

ghost use Rattle.std.specs.Prelude.{◌≡◌, ◌<◌, not, ◌||◌};
ghost use Rattle.timetable.specs.File.{stays_aboard};
ghost use Rattle.timetable.specs.Check.{wrong_trip, wrong_join};
ghost use Rattle.successions.specs.Next.{ComesAfter, mask_if};

use timetable::Fields;

// Whether 11 does not refuse connection c, which is not the first. The mask has all bits where c stays aboard, else none,
// so that no branch depends on that.
fn joins(fields: Fields, c: usize, mask: u16) -> bool
    requires { (0 < c) × (c < fields.connections) × (mask ≡ mask_if (stays_aboard fields.file.now c)) }
    ensures { result ≡ not (wrong_join fields.entry.file.now c) }
{
    let apart = fields.from(c).wrapping_sub(fields.to(c - 1));
    if apart & mask != 0 {
        return false;
    }
    fields.scheduled_arrival(c - 1) & mask <= fields.scheduled_departure(c)
}

// Whether neither 9 nor 11 refuses connection c, which is not the first.
pub fn follows(fields: Fields, c: usize) -> bool
    requires { ComesAfter fields.file.now c × (c < fields.connections) }
    ensures { result ≡ not (wrong_trip fields.entry.file.now c || wrong_join fields.entry.file.now c) }
{
    let step = fields.trip(c).wrapping_sub(fields.trip(c - 1));
    if 1 < step {
        return false;
    }
    joins(fields, c, step.wrapping_sub(1))
}
