// A log in pieces, again and again: each piece goes to the reader that the one before left; where the log ends its reader
// does, and another starts from the first byte.
use crate::records;
use logs::{Counts, Fed};

// The state stands here, so that nothing copies it but the function that is timed.
pub(crate) fn take(size: usize, input: &[u8], count: usize) -> u32 {
    let mut reader = logs::start();
    let mut rest = input;
    let mut sum = 0;
    for _ in 0..count {
        let (piece, behind) = rest.split_at(size.min(rest.len()));
        let fed = logs::feed(reader, piece);
        reader = fed.reader;
        rest = behind;
        sum = told(sum, &fed);
        if rest.is_empty() {
            sum = end_told(sum, logs::end(reader));
            reader = logs::start();
            rest = input;
        }
    }
    sum
}

// The refusal's number and the line, or else the bytes held.
fn told(sum: u32, fed: &Fed) -> u32 {
    match fed.answer {
        Ok(()) => records::add(sum, fed.reader.length as u64),
        Err(refusal) => {
            let number = u64::from(u8::from(refusal));
            records::add_all(sum, &[number, u64::from(fed.line)])
        }
    }
}

fn end_told(sum: u32, end: Fed) -> u32 {
    add_counts(told(sum, &end), end.reader.counts)
}

fn add_counts(sum: u32, counts: Counts) -> u32 {
    records::add_all(
        sum,
        &[
            u64::from(counts.channel),
            u64::from(counts.slots),
            u64::from(counts.read),
            u64::from(counts.clean),
            u64::from(counts.bits),
            u64::from(counts.noword),
            u64::from(counts.check),
            u64::from(counts.missing),
        ],
    )
}
