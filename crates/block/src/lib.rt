// Document 01, "The block": 272 bits in sending order, as 34 bytes.
#![tactic(auto)]

ghost use Rattle.std.specs.Prelude.{◌≡◌};
ghost use Rattle.block.specs.Told.{refusal_of, told_corrected, told_read};
ghost use Rattle.block.specs.Corrector.{Corrects};
ghost use Rattle.block.specs.Blocks.{Reads, Writes};

mod check;
mod rows;

pub use answers::INFORMATION_BYTES;
use answers::Refusal;
use words::Found;
pub use words::{BLOCK_BYTES, BLOCK_WORDS};

// Its information, with the check bits behind, with the parity behind both, in bits.
const INFORMATION_BITS: usize = 176;

const CHECKED_BITS: usize = 190;

const BLOCK_BITS: usize = 272;

// The row of the places in which the code word differs from what was received, and how many they are.
#[derive(Clone, Copy)]
pub struct Corrected {
    pub changed: [u64; BLOCK_WORDS],
    pub count: u8,
}

// Why the block reader gives no information. Where the check bits are wrong a code word was found, so its places are told.
#[derive(Clone, Copy)]
pub enum Unread {
    WrongLength,
    NoCodeWord,
    CheckBits(Corrected),
}

impl From<Unread> for Refusal {
    ghost from_gives = { λ unread refusal. refusal ≡ refusal_of unread };

    fn from(unread: Unread) -> Refusal {
        match unread {
            Unread::WrongLength => Refusal::WrongLength,
            Unread::NoCodeWord => Refusal::NoCodeWord,
            Unread::CheckBits(_) => Refusal::CheckBits,
        }
    }
}

// Puts into `out` the code word that differs from the received bits in at most eight places.
// Refusals, in the order of their tests: 1, `received` or `out` has another length than 34; 2, there is no such code word.
// A refusal leaves `out` as it was.
pub fn correct(received: &[u8], out: &mut [u8]) -> Result<Corrected, Refusal>
    ensures { Corrects received.now out.old out.new (told_corrected result) }
{
    // As `read_block` begins. Made one function, with `?` behind it, this took a quarter more time for a clean frame, since what
    // was found is then copied once more. It is taken apart in a second step, as arrays bound by the first get no proof.
    if received.len() != BLOCK_BYTES || out.len() != BLOCK_BYTES {
        return Err(Refusal::WrongLength);
    }
    let Some(found) = words::search(words::of_bytes(received)) else {
        return Err(Refusal::NoCodeWord);
    };
    let Found {
        word,
        changed,
        count,
    } = found;
    words::fill_bytes(word, out);
    Ok(Corrected { changed, count })
}

// Puts into `out` the 22 information bytes of the code word that differs from the received bits in at most eight places.
// Refusals, in the order of their tests: 1, `received` has another length than 34 or `out` than 22; 2, there is no such
// code word; 3, its check bits are wrong. A refusal leaves `out` as it was.
pub fn read_block(received: &[u8], out: &mut [u8]) -> Result<Corrected, Unread>
    ensures { Reads received.now out.old out.new (told_read result) }
{
    if received.len() != BLOCK_BYTES || out.len() != INFORMATION_BYTES {
        return Err(Unread::WrongLength);
    }
    let Some(found) = words::search(words::of_bytes(received)) else {
        return Err(Unread::NoCodeWord);
    };
    let Found {
        word,
        changed,
        count,
    } = found;
    let corrected = Corrected { changed, count };
    if !check::holds(&word) {
        return Err(Unread::CheckBits(corrected));
    }
    words::fill_bytes(word, out);
    Ok(corrected)
}

// Puts into `out` the block of 22 information bytes: information, check and parity in sending order.
// Refusal 1: `information` has another length than 22 or `out` than 34; `out` is as it was.
pub fn write_block(information: &[u8], out: &mut [u8]) -> Result<(), Refusal>
    ensures { Writes information.now out.old out.new result }
{
    if information.len() != INFORMATION_BYTES || out.len() != BLOCK_BYTES {
        return Err(Refusal::WrongLength);
    }
    let mut row = [false; BLOCK_BITS];
    rows::fill_row(information, &mut row);
    check::append(&mut row, INFORMATION_BITS, &check::divisor());
    check::append(&mut row, CHECKED_BITS, &code::generator_row());
    rows::fill_bytes(&row, out);
    Ok(())
}
