// Why on an area of bytes: its front is read into numbers; the answer is a number.
#![tactic(auto)]

ghost use Rattle.std.specs.Prelude.{◌≡◌};
ghost use Rattle.numbers.specs.Numbers.{numbers_of};
ghost use Rattle.model.specs.Operations.{explained};
ghost use Rattle.codes.specs.Encoded.{coded_primary};

// Why by bytes.
pub fn why_bytes(file: &[u8], notices: &[u8], connection: u16) -> u64
    ensures { result ≡ coded_primary (explained file.now (numbers_of notices.now) connection) }
{
    // The library has no heap.
    let mut n = [0u16; model::NOTICES_LENGTH];
    let n = fronts::read(notices, &mut n);
    codes::code(causes::why(file, n, connection))
}
