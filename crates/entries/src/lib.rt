// Readers of the graph area's entries, one for each by its name: where an entry lies is all that they are. What an entry says of an accepted area is in the model's proofs/Ready and Shown.
#![tactic(auto)]

ghost use Rattle.std.specs.Prelude.{◌≡◌, ◌+◌, ◌*◌, ◌<◌, length};
ghost use Rattle.model.specs.Graph.{departure_in, arrival_in, waiting_in, transfer_in, first_in};

// The expected departure of connection c.
pub fn departure(graph: &[u16], c: usize) -> u16
    requires { 2 * c < length graph.now }
    ensures { result ≡ departure_in graph.now c }
{
    graph[2 * c]
}

// The expected arrival of connection c.
pub fn arrival(graph: &[u16], c: usize) -> u16
    requires { 2 * c + 1 < length graph.now }
    ensures { result ≡ arrival_in graph.now c }
{
    graph[2 * c + 1]
}

// The waiting entry of connection c, of n.
pub fn waiting(graph: &[u16], n: usize, c: usize) -> u16
    requires { 2 * n + c < length graph.now }
    ensures { result ≡ waiting_in graph.now n c }
{
    graph[2 * n + c]
}

// The transfer entry of connection c, of n.
pub fn transfer(graph: &[u16], n: usize, c: usize) -> u16
    requires { 3 * n + c < length graph.now }
    ensures { result ≡ transfer_in graph.now n c }
{
    graph[3 * n + c]
}

// The first departure of stop s, where there are n connections.
pub fn first_departure(graph: &[u16], n: usize, s: usize) -> u16
    requires { 4 * n + s < length graph.now }
    ensures { result ≡ first_in graph.now n s }
{
    graph[4 * n + s]
}
