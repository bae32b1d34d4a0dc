// Building, posting and withdrawing, with the answer as a number.
#![tactic(auto)]

ghost use Rattle.model.specs.Day.{day_of, lent};
ghost use Rattle.coded_updates.specs.Updated.{UpdatedNumbers};

use codes::code_apart;
use model::Notice;

// What is done to both areas.
#[derive(Clone, Copy)]
pub enum Update {
    Build,
    Post(Notice),
    // number
    Withdraw(u16),
}

// An update of numbers: its code, apart by whether it was accepted.
pub fn update_numbers(
    file: &[u8],
    notices: &mut [u16],
    graph: &mut [u16],
    update: Update,
) -> Result<u64, u64>
    ensures { UpdatedNumbers (day_of file.now) (lent notices.old graph.old) update
        result (lent notices.new graph.new) }
{
    // Each case has its own operation and arguments: a closure for each would be no plainer.
    match update {
        Update::Build => code_apart(graph::build(file, notices, graph)),
        Update::Post(notice) => code_apart(graph::post(file, notices, graph, notice)),
        Update::Withdraw(number) => code_apart(graph::withdraw(file, notices, graph, number)),
    }
}
