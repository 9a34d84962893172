// bench TASK COUNT: calls a public function, which the first letter of TASK tells (correct, read, step, join, feed, or whole
// for whole frames), on so many records of standard input, from the first again where they end, and writes a sum over all
// that came of it, so that bench/run can time the function and hold it to C. Behind the letter of feed stand the bytes of a
// piece, as in f16.
#![tactic(auto)]

ghost use Rattle.std.specs.Prelude.{◌≡◌, ◌≤◌, length, IfSome};

mod blocks;
mod frames;
mod messages;
mod pieces;
mod records;
mod steps;

use std::env::Env;
use std::io::Read;

// Room for whole records, whether they have 22, 34 or 264 bytes, and for 113 frames.
const ROOM: usize = 1045704;

fn main(rt: HostRuntime) {
    let mut task = [0; 16];
    let mut digits = [0; 16];
    let mut records = room();
    let mut written = room();
    let size = match argument(&rt, 1, &mut task) {
        Some([_, size @ ..]) => number(size),
        _ => None,
    };
    let size = size.unwrap_or(0);
    let count = argument(&rt, 2, &mut digits).and_then(number).unwrap_or(0);
    let input = read_into(&mut records, &mut rt.reader());
    // Written first: bench/run sees that the sum is missing, of a run that was cut short too.
    let _ = print!(rt; "sum\t");
    let sum = take(task[0], size, input, &mut written, count);
    let _ = println!(rt; "{sum}");
}

// Reads to the end of the input or of the room. Where reading fails, what came until then is all.
fn read_into<'a, R: Read>(room: &'a mut [u8], input: &mut R) -> &'a [u8] {
    let mut length = 0;
    for _ in 0..room.len() {
        match input.read(&mut room[length..]) {
            Ok(0) | Err(_) => break,
            Ok(count) => length += count,
        }
    }
    &room[..length]
}

// The contract gives the length alone: a proof that sees all of these bytes runs out of room. They stand on the stack, where a
// compiler can tell the records from what is written of them, as in the programs in C.
fn room() -> [u8; ROOM]
    ensures { 1045704 ≡ length result }
{
    [0; ROOM]
}

// An argument. One that does not fit into its room is none, and leaves its first bytes there: so its letter tells a task.
fn argument<'a, R: Env>(rt: &R, index: usize, room: &'a mut [u8]) -> Option<&'a [u8]>
    ensures { IfSome result (λ word. length word.now ≤ length room.old) }
{
    let length = rt.arg(index, room).ok()?;
    Some(&room[..length])
}

fn number(digits: &[u8]) -> Option<usize> {
    text::read_number(digits, u32::MAX).map(|number| number as usize)
}

// `size` is that of a piece, and `written` is room for what comes of blocks and frames. One match and no table of functions, as
// each takes what it needs of these.
fn take(task: u8, size: usize, input: &[u8], written: &mut [u8], count: usize) -> u32 {
    match task {
        b'c' => blocks::correct(input, written, count),
        b'r' => blocks::read(input, written, count),
        b's' => steps::take(input, count),
        b'j' => messages::take(input, count),
        b'f' => pieces::take(size, input, count),
        b'w' => frames::correct(input, written, count),
        _ => 0,
    }
}
