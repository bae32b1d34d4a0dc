// Files read whole and written under a new name first. What is read and written no contract can say; what is read lies in its area.
#![tactic(auto)]

ghost use Rattle.std.specs.Prelude.{◌≡◌, length, IfOk};
ghost use Rattle.std.specs.Io.{ReadsAtMost};

use std::fmt::InlineText;
use std::fs::{File, OpenFile};
use std::io::{Eprint, Read, Write};
use std::rt::Files;
use std::{fs, io};

// Something failed, and a line on standard error has told what and why.
#[derive(Clone, Copy, Debug)]
pub struct Failed;

// What has been done; if it failed, a line on standard error says what failed and why.
pub fn told<T>(rt: &impl Eprint, what: &str, done: io::Result<T>) -> Result<T, Failed>
    ensures { IfOk result (λ x. done ≡ Ok x) }
{
    match done {
        Ok(x) => Ok(x),
        Err(error) => {
            let text = InlineText::<128>::of(error);
            let reason = reason(text.as_str());
            let _ = eprintln!(rt; "{what}: {reason}");
            Err(Failed)
        }
    }
}

// What the text of an error says before the number of the system's that it may end with.
fn reason(text: &str) -> &str {
    text.split_once(" (os error ")
        .map_or(text, |(before, _)| before)
}

// What is left of a file, into an area as far as it has room; how many bytes. `read_to_end` fills a `Vec`, which allocates, and
// `read_exact` fails where the area has more room.
fn read_all(file: &mut impl Read, area: &mut [u8]) -> io::Result<usize>
    ensures { ReadsAtMost result area.new }
{
    let mut n = 0;
    while n < area.len() {
        match file.read(&mut area[n..])? {
            0 => return Ok(n),
            more => n += more,
        }
    }
    Ok(n)
}

// The file of a name into an area as far as it has room; how many bytes.
pub fn load(rt: &impl Files, name: &str, area: &mut [u8]) -> io::Result<usize>
    ensures { ReadsAtMost result area.new }
{
    let mut file = fs::open(rt, name)?;
    read_all(&mut file, area)
}

// Writes bytes to a file and has them kept on the device.
fn write_whole(file: &mut (impl Write + OpenFile), bytes: &[u8]) -> io::Result<()> {
    file.write_all(bytes)?;
    file.sync_all()
}

// Writes bytes to a file of a new name. If that fails, it is told and the file is removed.
pub fn store(rt: &(impl Files + Eprint), new: &str, bytes: &[u8]) -> Result<(), Failed> {
    let mut file = told(rt, new, fs::create(rt, new))?;
    let stored = told(rt, new, write_whole(&mut file, bytes));
    drop(file);
    stored.inspect_err(|_| remove(rt, new))
}

// Gives the file of a new name its own name, which another file loses. If that fails, it is told and the file is removed.
pub fn publish(rt: &(impl Files + Eprint), new: &str, name: &str) -> Result<(), Failed> {
    told(rt, name, fs::rename(rt, new, name)).inspect_err(|_| remove(rt, new))
}

// Removes the file of a name, if it can be removed.
pub fn remove(rt: &impl Files, name: &str) {
    let _ = fs::remove_file(rt, name);
}
