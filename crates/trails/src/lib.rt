// Predecessors followed from the last connection of a journey to its first, and the journey written in the order of travel.
#![tactic(auto)]

ghost use Rattle.std.specs.Prelude.{◌≡◌, ◌≤◌, length};
ghost use Rattle.trails.specs.Trail.{journey_to, Trail, JourneyWritten};

// How many connections the journey has that ends with last. A `while`, since each step leads to what the one before found.
#[tactic(auto, using(crate::proofs::Trail::length_follow, crate::proofs::Trail::step_more))]
fn journey_length(predecessors: &[u16], last: u16) -> usize
    requires { Trail predecessors.now last }
    ensures { result ≡ length (journey_to predecessors.now last) }
{
    let mut k = 1;
    let mut c = last;
    while predecessors[c as usize] != c {
        c = predecessors[c as usize];
        k += 1;
    }
    k
}

// Writes the journey that ends with last, in the order of travel, to the front of the journey area; how many connections
// it has.
pub fn write_journey(predecessors: &[u16], journey: &mut [u16], last: u16) -> usize
    requires { Trail predecessors.now last × (length predecessors.now ≤ length journey.old) }
    ensures { JourneyWritten predecessors.now last journey.old result journey.new }
{
    let k = journey_length(predecessors, last);
    let mut c = last;
    for i in (0..k).rev() {
        journey[i] = c;
        c = predecessors[c as usize];
    }
    k
}
