// The lines of an input, found in blocks of it.
#![tactic(auto)]

ghost use Rattle.std.specs.Prelude.{◌≡◌, true, ◌+◌, ◌-◌, ◌<◌, ◌≤◌, MatchOption, length, take, drop};
ghost use Rattle.input.specs.Lines.{plain, whole_line, HeldBack};

// How many bytes are held of a line that has not ended: `held_room`.
const HELD_ROOM: usize = commands::MAX_LINE + 1;

// Where the line ends that starts at a place of a block, if a newline ends it.
pub fn whole_end(block: &[u8], at: usize) -> Option<usize>
    requires { at ≤ length block.now }
    ensures { MatchOption result (plain (drop at block.now) ≡ true)
        (λ end. (at < end) × (end ≡ at + length (whole_line (drop at block.now)))) }
{
    let end = cuts::end_of(block, at, b'\n')?;
    Some(end + 1)
}

// What is held of the bytes of a block from `at` up to `end`, moved to its front; how many bytes.
#[tactic(auto, using(crate::proofs::Holding::moved_held))]
pub fn hold(block: &mut [u8], at: usize, end: usize) -> usize
    requires { (at ≤ end) × (end ≤ length block.old) }
    ensures { HeldBack result block.new block.old (take (end - at) (drop at block.old)) }
{
    let n = HELD_ROOM.min(end - at);
    block.copy_within(at..at + n, 0);
    n
}
