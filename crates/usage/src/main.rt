// Corrects a block and reads a log: the program of docs/USE.md.
#![tactic(auto)]

use std::io;

fn main(rt: HostRuntime) -> io::Result<()> {
    let mut received = [0u8; 34];
    received[0] = 0x88;
    let mut word = [0u8; 34];
    match block::correct(&received, &mut word) {
        Ok(corrected) => println!(rt; "corrected bits: {}", corrected.count)?,
        Err(refusal) => println!(rt; "corrected bits: refused, {refusal}")?,
    }

    let read = logs::read(b"channel\t7\n1\t2\n2\t-\n");
    match read.answer {
        Ok(()) => println!(rt; "missing slots: {}", read.counts.missing),
        Err(refusal) => println!(rt; "missing slots: refused, {refusal}"),
    }
}
