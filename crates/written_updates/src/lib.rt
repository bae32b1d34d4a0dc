// What an accepted update leaves of both areas, written back to areas of bytes.
#![tactic(auto)]

ghost use Rattle.std.specs.Prelude.{◌≡◌, true, ◌≤◌, length, take};
ghost use Rattle.timetable.specs.File.{header_length};
ghost use Rattle.model.specs.Drawn.{graph_length};
ghost use Rattle.fronts.specs.Fronts.{writes, WrittenBoth};

// Both areas written back after an accepted update, each to its stated length; nothing after a refusal.
#[tactic(auto, unfolding(numbers::specs::Numbers::over_bytes))]
pub fn write_back(
    file: &[u8],
    n: &[u16],
    g: &[u16],
    notices: &mut [u8],
    graph: &mut [u8],
    accepted: bool,
)
    requires { accepted ≡ true → (header_length ≤ length file.now) × (graph_length file.now ≤ length g.now) }
    ensures { WrittenBoth
        (take (writes accepted (length n.now)) n.now)
        (take (writes accepted (graph_length file.now)) g.now)
        notices.old graph.old notices.new graph.new }
{
    if accepted {
        let stops = timetable::stops(file) as usize;
        let connections = timetable::connections(file) as usize;
        fronts::write_both(n, &g[..4 * connections + stops], notices, graph);
    }
}
