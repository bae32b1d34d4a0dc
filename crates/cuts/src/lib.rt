// A text cut at a byte, a column of it read, and whether it starts with another.
#![tactic(auto)]

ghost use Rattle.std.specs.Prelude.{◌≡◌, true, false, ◌+◌, ◌<◌, ◌≤◌, Option, IfSome, MatchOption, List, ℕ, length, drop};
ghost use Rattle.std.specs.Fn.{FnReturnsAt};
ghost use Rattle.cuts.specs.Cut.{has, before, after, starts_with};
ghost use Rattle.cuts.specs.Columns.{column_of};

// Where the piece of a text that starts at a place ends, at the first such byte, if there is one. Counted by hand: with a `for` over the
// places, or `position`, the compiler keeps more counts for each byte, and an import needs a tenth more instructions.
#[tactic(auto, using(crate::proofs::Places::places))]
pub fn end_of(text: &[u8], at: usize, byte: u8) -> Option<usize>
    requires { at ≤ length text.now }
    ensures { MatchOption result (has byte (drop at text.now) ≡ false)
        (λ end. (end < length text.now) × (end ≡ at + length (before byte (drop at text.now)))) }
{
    let mut i = at;
    while i < text.len() {
        if text[i] == byte {
            return Some(i);
        }
        i += 1;
    }
    None
}

// The column that starts at a place of a text and that such a byte ends, and where the next one starts.
#[tactic(auto, using(crate::proofs::Columns::column_open))]
pub fn column<F: Fn(&[u8]) -> Option<u16>>(
    text: &[u8],
    at: usize,
    byte: u8,
    read: F,
) -> Option<(u16, usize)>
    ghost reads: { List ℕ → Option ℕ }
    requires within { at ≤ length text.now }
    requires callable { F.IsAlwaysCallable read }
    requires known { (word : List ℕ) (r : Option ℕ) → FnReturnsAt F.Fn read word r → r ≡ reads word }
    ensures within { IfSome result (λ found. found.1 ≤ length text.now) }
    ensures read { result ≡ column_of reads byte text.now at }
{
    let end = end_of(text, at, byte)?;
    Some((read(&text[at..end])?, end + 1))
}

// The first piece of a text, and what stands after the byte that ends it, if one does.
#[tactic(auto, using(crate::proofs::Pieces::first))]
pub fn first_piece(text: &[u8], byte: u8) -> (&[u8], Option<&[u8]>)
    ensures piece { result.0.now ≡ before byte text.now }
    ensures rest { MatchOption result.1 (has byte text.now ≡ false) (λ rest. (has byte text.now ≡ true) × (rest.now ≡ after byte text.now)) }
{
    let Some(end) = end_of(text, 0, byte) else {
        return (text, None);
    };
    (&text[..end], Some(&text[end + 1..]))
}

// Whether a text starts with another.
#[tactic(auto, using(crate::proofs::Places::starts))]
pub fn starts_with(text: &[u8], other: &[u8]) -> bool
    ensures { result ≡ starts_with other.now text.now }
{
    text.starts_with(other)
}
