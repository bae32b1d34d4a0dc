// The fronts of areas of bytes: as many numbers as an operation can need of an area, read into numbers that the caller lends and
// written back.
#![tactic(auto)]

ghost use Rattle.std.specs.Prelude.{◌≡◌, ◌/◌, length, take};
ghost use Rattle.numbers.specs.Numbers.{numbers_of};
ghost use Rattle.fronts.specs.Fronts.{ReadBoth, ReadFronts, WrittenBoth};

// The part of `lent` that the numbers of an area go into.
fn front<'a>(bytes: &[u8], lent: &'a mut [u16]) -> &'a mut [u16]
    ensures { result.now ≡ take (length bytes.now / 2) lent.old }
{
    let n = (bytes.len() / 2).min(lent.len());
    &mut lent[..n]
}

// The front of an area: all of its numbers, and no more than are lent.
#[tactic(auto, using(crate::proofs::Fronts::read_front))]
pub fn read<'a>(bytes: &[u8], lent: &'a mut [u16]) -> &'a mut [u16]
    ensures { result.now ≡ take (length lent.old) (numbers_of bytes.now) }
{
    numbers::read_area(bytes, lent);
    front(bytes, lent)
}

// Two areas into numbers, as many as there is room for; what lies behind them is unchanged.
pub fn read_both(first: &[u8], second: &[u8], a: &mut [u16], b: &mut [u16])
    ensures { ReadBoth first.now second.now a.old b.old
        a.new b.new }
{
    numbers::read_area(first, a);
    numbers::read_area(second, b);
}

// The fronts of two areas.
#[tactic(auto, using(crate::proofs::Fronts::read_front))]
pub fn read_fronts<'a, 'b>(
    first: &[u8],
    second: &[u8],
    a: &'a mut [u16],
    b: &'b mut [u16],
) -> (&'a mut [u16], &'b mut [u16])
    ensures { ReadFronts (length a.old) (length b.old) first.now second.now result.0.now result.1.now }
{
    read_both(first, second, a, b);
    (front(first, a), front(second, b))
}

// Numbers back into two areas.
pub fn write_both(a: &[u16], b: &[u16], first: &mut [u8], second: &mut [u8])
    ensures { WrittenBoth a.now b.now first.old second.old
        first.new second.new }
{
    numbers::write_area(a, first);
    numbers::write_area(b, second);
}
