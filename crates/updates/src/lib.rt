// Building, posting and withdrawing on areas of bytes: the fronts are read into numbers, the numbers worked on, and what an accepted
// update changed is written back; the answer is a number.
#![tactic(auto)]

ghost use Rattle.model.specs.Day.{day_of};
ghost use Rattle.fronts.specs.Fronts.{lent_bytes};
ghost use Rattle.coded_updates.specs.Updated.{updated, OutcomeBytes};

pub use coded_updates::Update;

// An update of bytes.
pub fn update_bytes(file: &[u8], notices: &mut [u8], graph: &mut [u8], update: Update) -> u64
    ensures { OutcomeBytes
        (updated (day_of file.now) (lent_bytes notices.old graph.old) update)
        notices.old graph.old result notices.new graph.new }
{
    // The library has no heap; each array is lent by itself, so that a struct of them would be no plainer.
    let mut n = [0u16; model::NOTICES_LENGTH];
    let mut g = [0u16; model::MOST_GRAPH];
    let (n, g) = fronts::read_fronts(notices, graph, &mut n, &mut g);
    let worked = coded_updates::update_numbers(file, n, g, update);
    let accepted = worked.is_ok();
    written_updates::write_back(file, n, g, notices, graph, accepted);
    match worked {
        Ok(code) => code,
        Err(code) => code,
    }
}
