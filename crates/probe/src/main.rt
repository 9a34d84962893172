// The probe: reads cases from standard input, a line each, calls the public functions of the libraries, and writes a
// line for each case. docs/PROBE.md has the notation. Each area has a module, with a function for each of its commands.
#![tactic(auto)]

mod arguments;
mod blocks;
mod cases;
mod frames;
mod groups;
mod messages;
mod readers;
mod shown;
mod surveys;

use arguments::Unanswered;
use std::fmt::{Display, Formatter};
use std::io::{BufRead, BufReader, Read};
use std::{fmt, io};

// A line with so many bytes is too long.
const LINE: usize = 262144;

// Why the probe ends before its input does.
#[derive(Debug, Drop)]
enum Failure {
    Input,
    Output,
    OutOfMemory,
}

impl Display for Failure {
    fn fmt<W: fmt::Write>(&self, f: &mut Formatter<W>) -> fmt::Result {
        f.write_str(match self {
            Failure::Input => "standard input cannot be read",
            Failure::Output => "standard output cannot be written",
            Failure::OutOfMemory => "out of memory",
        })
    }
}

fn main(rt: HostRuntime) {
    if let Err(failure) = answer_all(&rt) {
        let _ = eprintln!(rt; "probe: {failure}");
    }
}

// Each answer is written whole before the next line is read.
fn answer_all<R: Input + Print + AllocGlobal>(rt: &R) -> Result<(), Failure> {
    let mut input = BufReader::new(rt.alloc(), rt.reader()).map_err(|_| Failure::OutOfMemory)?;
    let mut line = Vec::with_capacity(rt.alloc(), LINE).map_err(|_| Failure::OutOfMemory)?;
    // A proved loop has to end: no input has so many lines.
    for _ in 0..u64::MAX {
        let ended = read_line(&mut input, &mut line).map_err(|_| Failure::Input)?;
        if ended || !line.is_empty() {
            answer(rt, &line)?;
        }
        if !ended {
            break;
        }
    }
    Ok(())
}

// Reads a line without its line feed, and tells whether there was one. The empty line, which is no case either, stands for
// one that is too long: so nobody has to tell the two apart.
fn read_line<B: BufRead>(input: &mut B, line: &mut Vec<u8>) -> io::Result<bool> {
    line.clear();
    input.by_ref().take(LINE as u64).read_until(b'\n', line)?;
    if line.last() == Some(&b'\n') {
        line.pop();
        return Ok(true);
    }
    if line.len() < LINE {
        return Ok(false);
    }
    line.clear();
    input.skip_until(b'\n')?;
    Ok(true)
}

fn answer<R: Print + AllocGlobal>(rt: &R, line: &[u8]) -> Result<(), Failure> {
    let written = match cases::answer(line, rt.alloc()) {
        Ok(mut answer) => {
            answer.push('\n').map_err(|_| Failure::OutOfMemory)?;
            rt.write_all(answer.as_bytes())
        }
        Err(Unanswered::NoCase) => rt.write_all(b"bad case\n"),
        Err(Unanswered::OutOfMemory) => return Err(Failure::OutOfMemory),
    };
    written.map_err(|_| Failure::Output)
}
