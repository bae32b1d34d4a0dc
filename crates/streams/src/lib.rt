// The files of the desk program: day.ttg read, the input read into its block, answers written. What is read and written no contract can
// say; what is read lies in its area.
#![tactic(auto)]

ghost use Rattle.std.specs.Prelude.{◌≤◌, length};
ghost use Rattle.std.specs.Io.{ReadsAtMost};

use files::Failed;
use std::io::{Eprint, Print, Read};
use std::rt::Files;

// The file day.ttg into file as far as it has room; how many bytes, and 0 where it cannot be read.
pub fn load(rt: &impl Files, file: &mut [u8]) -> usize
    ensures { result ≤ length file.new }
{
    files::load(rt, "day.ttg", file).unwrap_or(0)
}

// Writes answers to standard output.
pub fn print(rt: &(impl Print + Eprint), answers: &[u8]) -> Result<(), Failed> {
    files::told(rt, "standard output", rt.write_all(answers))
}

// More of standard input into an area as far as it has room; how many bytes, and 0 at the end of standard input.
pub fn read(rt: &impl Eprint, reader: &mut impl Read, area: &mut [u8]) -> Result<usize, Failed>
    ensures { ReadsAtMost result area.new }
{
    files::told(rt, "standard input", reader.read(area))
}
