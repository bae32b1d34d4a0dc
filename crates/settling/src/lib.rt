// The entry that a connection gets when the pass visits it.
#![tactic(auto)]

ghost use Rattle.std.specs.Prelude.{◌≡◌, ◌<◌, length};
ghost use Rattle.model.specs.Journeys.{can_be_first};
ghost use Rattle.model.specs.Shown.{shown};
ghost use Rattle.settling.specs.Settled.{settled};

use graph::Network;
use model::NONE;

// A search: over a network, from a stop at a time or later.
#[derive(Clone, Copy)]
pub struct Search<'a> {
    pub network: Network<'a>,
    pub from: u16,
    pub time: u16,
}

// Whether connection d leaves the stop at the time or later.
#[tactic(auto, using(crate::proofs::Read::first_here, crate::proofs::Read::first_elsewhere))]
fn can_be_first(search: Search, d: usize) -> bool
    requires { d < search.network.shown.timetable.connections }
    ensures { result ≡ can_be_first (shown search.entry.network.shown.timetable.file.now search.entry.network.shown.graph.now) search.entry.from search.entry.time d }
{
    let shown = search.network.shown;
    if shown.timetable.from(d) == search.from {
        return search.time <= shown.departure(d);
    }
    false
}

// The entry that connection d gets on its visit, a number as the work area holds it, NONE for none: with Options each read of an entry
// makes one of a number and each write a number of it, which is no plainer.
#[tactic(auto, using(crate::proofs::Steps::settle_first, crate::proofs::Steps::settle_aboard, crate::proofs::Steps::settle_lower, crate::proofs::Steps::settle_unreached, crate::proofs::Steps::settle_alone, crate::proofs::Read::has_before))]
pub fn settle(search: Search, d: u16, work: &[u16]) -> u16
    requires { (d < search.network.shown.timetable.connections) × (length work.now ≡ search.network.shown.timetable.connections) }
    ensures { result ≡ settled (shown search.entry.network.shown.timetable.file.now search.entry.network.shown.graph.now) search.entry.from search.entry.time work.now d }
{
    let c = d as usize;
    if can_be_first(search, c) {
        return d;
    }
    let collected = work[c];
    if search.network.shown.timetable.stays_aboard(c) {
        if work[c - 1] < NONE {
            let before = d - 1;
            if before < collected {
                return before;
            }
        }
    }
    collected
}
