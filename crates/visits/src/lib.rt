// One turn of the pass that fills the predecessors: the visit of a connection.
#![tactic(auto)]

ghost use Rattle.std.specs.Prelude.{◌≡◌, ◌<◌, length};
ghost use Rattle.model.specs.Least.{none};
ghost use Rattle.model.specs.Shown.{shown};
ghost use Rattle.visits.specs.Visits.{offered, visited, turned};

use model::NONE;
use settling::Search;

// Offers e to x: work[x] becomes e if that is lower. An x past the end, as NONE, is passed over.
// Entries are numbers, as the work area holds them: see `settling::settle`.
#[tactic(auto, using(crate::proofs::Steps::offer_lower, crate::proofs::Steps::offer_higher, crate::proofs::Steps::offer_past))]
fn offer(x: u16, e: u16, work: &mut [u16])
    ensures { work.new ≡ offered work.old x e }
{
    let i = x as usize;
    if i < work.len() {
        if e < work[i] {
            work[i] = e;
        }
    }
}

// The visit of connection d: what it has collected goes on along its waiting arc, d gets its entry, and if it is reached it
// is offered along its transfer arc.
#[tactic(auto, using(crate::proofs::Steps::passed_on_is, crate::proofs::Steps::visit_reached, crate::proofs::Steps::visit_unreached, crate::proofs::Read::waiting_is, crate::proofs::Read::transfer_is))]
fn visit(search: Search, d: u16, work: &mut [u16])
    requires { (d < search.network.shown.timetable.connections) × (length work.old ≡ search.network.shown.timetable.connections) }
    ensures { work.new ≡ visited (shown search.entry.network.shown.timetable.file.now search.entry.network.shown.graph.now) search.entry.from search.entry.time work.old d }
{
    let shown = search.network.shown;
    let c = d as usize;
    let collected = work[c];
    let entry = settling::settle(search, d, work);
    offer(shown.waiting(c), collected, work);
    work[c] = entry;
    if entry < NONE {
        offer(shown.transfer(c), d, work);
    }
}

// The turn of a slot of the order: the visit of the connection d that it holds, if it holds one.
#[tactic(auto, using(crate::proofs::Steps::turn_visits, crate::proofs::Steps::turn_skips))]
pub fn turn(search: Search, d: u16, work: &mut [u16])
    requires known { d < none → d < search.network.shown.timetable.connections }
    requires work_len { length work.old ≡ search.network.shown.timetable.connections }
    ensures { work.new ≡ turned (shown search.entry.network.shown.timetable.file.now search.entry.network.shown.graph.now) search.entry.from search.entry.time work.old d }
{
    if d < NONE {
        visit(search, d, work);
    }
}
