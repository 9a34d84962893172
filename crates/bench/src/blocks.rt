// Blocks of 34 bytes through the corrector or the block reader.
use crate::records;
use answers::Refusal;
use block::{BLOCK_BYTES, BLOCK_WORDS, Corrected, INFORMATION_BYTES, Unread};

// What is told of a block in which nothing was corrected. The library has no such value, so that nobody takes it for a reading.
const NONE: Corrected = Corrected {
    count: 0,
    changed: [0; BLOCK_WORDS],
};

pub(crate) fn correct(input: &[u8], written: &mut [u8], count: usize) -> u32 {
    let (blocks, _) = input.as_chunks::<BLOCK_BYTES>();
    let (places, _) = written.as_chunks_mut();
    let sum = records::sum_over(blocks, places, count, |sum, block, place| {
        match block::correct(block, place) {
            Ok(corrected) => told(sum, corrected),
            Err(refusal) => refused(sum, NONE, refusal),
        }
    });
    records::add_bytes(sum, written)
}

// The information stands at the front of the block's place.
pub(crate) fn read(input: &[u8], written: &mut [u8], count: usize) -> u32 {
    let (blocks, _) = input.as_chunks::<BLOCK_BYTES>();
    let (places, _) = written.as_chunks_mut();
    let sum = records::sum_over(blocks, places, count, |sum, block, place| {
        match block::read_block(block, &mut place[..INFORMATION_BYTES]) {
            Ok(corrected) => told(sum, corrected),
            Err(Unread::CheckBits(corrected)) => refused(sum, corrected, Refusal::CheckBits),
            Err(unread) => refused(sum, NONE, Refusal::from(unread)),
        }
    });
    records::add_bytes(sum, written)
}

fn told(sum: u32, corrected: Corrected) -> u32 {
    records::add_all(
        sum,
        &[
            u64::from(corrected.count),
            u64::from(mixed(&corrected.changed)),
        ],
    )
}

fn refused(sum: u32, corrected: Corrected, refusal: Refusal) -> u32 {
    records::add(told(sum, corrected), u64::from(u8::from(refusal)))
}

// One number of the five words, each rotated by another amount, so that none can stand for another, and both halves of it.
fn mixed(words: &[u64; BLOCK_WORDS]) -> u32 {
    let [a, b, c, d, e] = *words;
    let whole = a ^ b.rotate_left(13) ^ c.rotate_left(26) ^ d.rotate_left(39) ^ e.rotate_left(52);
    records::add_all(0, &[whole >> 32, whole])
}
