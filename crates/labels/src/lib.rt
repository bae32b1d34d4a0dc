// Labels with their numbers, and lines of one number and of two. What is put stands in out from a place on, and the place after it is the
// answer; a line that is written stands at the front of out, and its length is the answer. An area and a place in it stand for a String,
// since there is no heap; they are two parameters, since a struct of an area that is written has to be taken apart for each write.
#![tactic(auto)]

ghost use Rattle.std.specs.Prelude.{◌+◌, ◌≤◌, length};
ghost use Rattle.decimals.specs.Written.{Written};
ghost use Rattle.labels.specs.Labels.{labelled, number_line, pair_line};
ghost use Rattle.labels.specs.Room.{LineIs};

// A text into out from a place on; the place after it.
#[tactic(auto, using(crate::proofs::Texts::text_copied))]
pub fn put_text(text: &[u8], out: &mut [u8], at: usize) -> usize
    requires { at + length text.now ≤ length out.old }
    ensures { Written result out.new out.old at text.now }
{
    let end = at + text.len();
    out[at..end].copy_from_slice(text);
    end
}

// A label and a number into out from a place on; the place after them.
pub fn put_labelled(label: &[u8], number: u32, out: &mut [u8], at: usize) -> usize
    requires { at + length (labelled label.now number) ≤ length out.old }
    ensures { Written result out.new out.old at (labelled label.now number) }
{
    let next = put_text(label, out, at);
    decimals::put_decimal(number, out, next)
}

// A line of one number with its label.
pub fn write_number(label: &[u8], number: u32, out: &mut [u8]) -> usize
    requires { length (number_line label.now number) ≤ length out.old }
    ensures { LineIs result out.new out.old (number_line label.now number) }
{
    let next = put_labelled(label, number, out, 0);
    put_text(b"\n", out, next)
}

// A line of two numbers, each with its label, into out from a place on; the place after it.
pub fn put_pair(
    label: &[u8],
    number: u16,
    second: &[u8],
    other: u16,
    out: &mut [u8],
    at: usize,
) -> usize
    requires { at + length (pair_line label.now number second.now other) ≤ length out.old }
    ensures { Written result out.new out.old at
        (pair_line label.now number second.now other) }
{
    let next = put_labelled(label, number as u32, out, at);
    let last = put_labelled(second, other as u32, out, next);
    put_text(b"\n", out, last)
}

// A line of two numbers, each with its label.
#[tactic(auto, using(crate::proofs::Texts::line_written))]
pub fn write_pair(label: &[u8], number: u16, second: &[u8], other: u16, out: &mut [u8]) -> usize
    requires { length (pair_line label.now number second.now other) ≤ length out.old }
    ensures { LineIs result out.new out.old (pair_line label.now number second.now other) }
{
    put_pair(label, number, second, other, out, 0)
}
