// Margins on areas of bytes: the fronts are read into numbers; the answer is a number.
#![tactic(auto)]

ghost use Rattle.std.specs.Prelude.{◌≡◌};
ghost use Rattle.model.specs.Day.{day_of};
ghost use Rattle.model.specs.Operations.{margined};
ghost use Rattle.codes.specs.Encoded.{coded_margin};
ghost use Rattle.fronts.specs.Fronts.{lent_bytes};

use model::{Change, Lent};

// A margin by bytes.
#[tactic(auto, using(crate::proofs::Margin::margin_read))]
pub fn margin_bytes(file: &[u8], notices: &[u8], graph: &[u8], change: Change) -> i64
    ensures { result
        ≡ coded_margin
        (margined (day_of file.now) (lent_bytes notices.now graph.now) change.connection change.next) }
{
    // The library has no heap; each array is lent by itself, so that a struct of them would be no plainer.
    let mut n = [0u16; model::NOTICES_LENGTH];
    let mut g = [0u16; model::MOST_GRAPH];
    let (notices, graph) = fronts::read_fronts(notices, graph, &mut n, &mut g);
    codes::code_margin(margins::margin(file, Lent { notices, graph }, change))
}
