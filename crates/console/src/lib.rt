// The desk: the timetable from the file day.ttg, then the commands from standard input, each with its answer. What is said is the
// dialogue's; files are read and written by `streams`, and what is read and written no contract can say.
#![tactic(auto)]

ghost use Rattle.std.specs.Prelude.{◌≤◌, length};
ghost use Rattle.timetable.specs.Check.{max_connections};
ghost use Rattle.labels.specs.Room.{line_room};

use files::Failed;
use std::io;
use std::io::{Eprint, Print, Read};
use std::rt::Files;

// Room for the file: one byte more than the longest timetable has.
const FILE_ROOM: usize = acceptance::LONGEST_FILE + 1;

// Room for a block of the input.
const BLOCK_ROOM: usize = 65536;

// Room for a block of the output, and for the longest answer behind it.
const OUT_ROOM: usize = BLOCK_ROOM + dialogue::ANSWER_ROOM;

// Answers the lines of standard input that a newline ends; whether a last line comes after them.
fn work_lines(
    rt: &(impl Print + Eprint),
    reader: &mut impl Read,
    file: &[u8],
    notices: &mut [u16],
    graph: &mut [u16],
    work: &mut [u16],
    journey: &mut [u16],
    out: &mut [u8],
    block: &mut [u8],
) -> Result<bool, Failed>
    requires { length journey.old ≤ max_connections }
{
    // Where the bytes of the block that are not worked yet start and end.
    let mut at = 0;
    let mut end = 0;
    // The input decides when the loop ends, so it has no bound of its own: a `loop` would need one, and an endless loop a `Wait`, which allows it
    // never to end. It is counted instead; `Ok(false)` after it stands for a count that no input reaches.
    for _ in 0..u64::MAX {
        let done = dialogue::work_block(file, notices, graph, work, journey, out, &block[at..end]);
        streams::print(rt, &out[..done.size])?;
        at += done.at;
        if !done.full {
            let held = input::hold(block, at, end);
            let more = streams::read(rt, reader, &mut block[held..])?;
            if more == 0 {
                return Ok(held > 0);
            }
            at = 0;
            end = held + more;
        }
    }
    Ok(false)
}

// Answers a last line that no newline ends.
fn work_last(rt: &(impl Print + Eprint), out: &mut [u8]) -> Result<(), Failed>
    requires { line_room ≤ length out.old }
{
    let n = ends::work_unended(out);
    streams::print(rt, &out[..n])
}

// Builds and prints the counts or the refusal; whether the timetable is accepted.
fn begin(
    rt: &(impl Print + Eprint),
    file: &[u8],
    notices: &mut [u16],
    graph: &mut [u16],
    out: &mut [u8],
) -> Result<bool, Failed>
    requires { line_room ≤ length out.old }
{
    match ends::begin(file, notices, graph, out) {
        Ok(size) => {
            streams::print(rt, &out[..size])?;
            Ok(true)
        }
        Err(size) => {
            streams::print(rt, &out[..size])?;
            Ok(false)
        }
    }
}

// Answers standard input.
fn work_input(
    rt: &(impl io::Input + Print + Eprint),
    file: &[u8],
    notices: &mut [u16],
    graph: &mut [u16],
    out: &mut [u8],
) -> Result<(), Failed>
    requires { line_room ≤ length out.old }
{
    // The desk has no heap; each array is lent by itself, so that a struct of them would be no plainer.
    let mut work = [0u16; timetable::MAX_CONNECTIONS];
    let mut journey = [0u16; timetable::MAX_CONNECTIONS];
    let mut block = [0u8; BLOCK_ROOM];
    let mut reader = rt.reader();
    if work_lines(
        rt,
        &mut reader,
        file,
        notices,
        graph,
        &mut work,
        &mut journey,
        out,
        &mut block,
    )? {
        work_last(rt, out)?;
    }
    Ok(())
}

// The desk with a file.
fn work(rt: &(impl io::Input + Print + Eprint), file: &[u8]) -> Result<(), Failed> {
    // The desk has no heap; each array is lent by itself, so that a struct of them would be no plainer.
    let mut notices = [0u16; model::NOTICES_LENGTH];
    let mut graph = [0u16; model::MOST_GRAPH];
    let mut out = [0u8; OUT_ROOM];
    if begin(rt, file, &mut notices, &mut graph, &mut out)? {
        work_input(rt, file, &mut notices, &mut graph, &mut out)?;
    }
    Ok(())
}

// The whole desk. It stops where something fails, which is told by then.
pub fn run(rt: &(impl Files + io::Input + Print + Eprint)) {
    // The desk has no heap.
    let mut file = [0u8; FILE_ROOM];
    let n = streams::load(rt, &mut file);
    let _ = work(rt, &file[..n]);
}
