// Document 01, "The block", on whole words: the 272 bits of a block as five words of 64, and the code word near such a row
// (document 02, ticket 3). The vote is that of `code`; here it is taken for 64 positions at a time.
#![tactic(auto)]

ghost use Rattle.std.specs.Prelude.{◌≡◌, false, ℕ, ◌+◌, ◌*◌, ◌<◌, ◌≤◌, length};
ghost use Rattle.code.specs.Code.{difference};
ghost use Rattle.words.specs.Bytes.{bit_of, bit_in};
ghost use Rattle.words.specs.Words.{FiveWords, row_of_words, OfBytes, FilledBytes};
ghost use Rattle.words.specs.Near.{Searched};

mod circle;
mod votes;

use circle::Circle;
use votes::Turned;

// A block without its BIC, in bytes.
pub const BLOCK_BYTES: usize = 34;

// The 272 places of a block in words: position p is the bit of weight 2^(p mod 64) in word p / 64, and the top 48 bits of
// the last are zero.
pub const BLOCK_WORDS: usize = 5;

const WORD_BITS: usize = 64;

// What was found for a row: a code word, the places in which the row differs from it, and how many they are. The number
// stands last, so that nothing lies between the words when they are copied.
#[derive(Clone, Copy)]
pub struct Found {
    pub word: [u64; BLOCK_WORDS],
    pub changed: [u64; BLOCK_WORDS],
    pub count: u8,
}

// The words of the 34 bytes of a block. For another number of bytes they are zero, as `OfBytes` has it: no Option, since a
// caller that has tested the length would have to take it apart.
pub fn of_bytes(bytes: &[u8]) -> [u64; BLOCK_WORDS]
    ensures { OfBytes bytes.now result }
{
    if bytes.len() != BLOCK_BYTES {
        return [0; BLOCK_WORDS];
    }
    [
        word_at(bytes, 0, 8),
        word_at(bytes, 8, 8),
        word_at(bytes, 16, 8),
        word_at(bytes, 24, 8),
        word_at(bytes, 32, 2),
    ]
}

// Fills `out` with the leading bytes of a row. More than 34 bytes are left as they were, as `FilledBytes` has it: no Result, for
// the same reason.
pub fn fill_bytes(row: [u64; BLOCK_WORDS], out: &mut [u8])
    ensures { FilledBytes row out.old out.new }
{
    if BLOCK_BYTES < out.len() {
        return;
    }
    for k in 0..out.len() {
        out[k] = ((row[k / 8] >> (8 * (k % 8))) % 256) as u8;
    }
}

// The code word within eight places of a row, where there is one; the 48 bits behind its last place play no part.
// A code word itself is known by its sums, without a vote; the same test tells whether the voted row is one.
pub fn search(row: [u64; BLOCK_WORDS]) -> Option<Found>
    ensures { Searched (row_of_words row) result }
{
    let given = kept(&row);
    let circle = Circle::of(&given);
    if circle.is_even() {
        return Some(Found {
            word: given,
            count: 0,
            changed: [0; BLOCK_WORDS],
        });
    }
    let Turned { changed, count } = votes::turn(&Circle::of(&circle.sums()))?;
    let word = sum_of(&given, &changed);
    if !Circle::of(&word).is_even() {
        return None;
    }
    Some(Found {
        word,
        count,
        changed,
    })
}

// So many bytes from `at` on as a word, the first lowest: one loop for whole words and for the last two bytes.
fn word_at(bytes: &[u8], at: usize, count: usize) -> u64
    requires { (at + count ≤ length bytes.now) × (count ≤ 8) }
    ensures { ((k : ℕ) → k < 8 * count → bit_of result k ≡ bit_in 8 bytes.now (8 * at + k)) × ((k : ℕ) → 8 * count ≤ k → bit_of result k ≡ false) }
{
    let mut word = 0;
    for j in 0..count {
        word |= u64::from(bytes[at + j]) << (8 * j);
    }
    word
}

// The 272 places of five words, without the 48 bits behind them. That nothing stands there is a clause and not a type of its
// own: the promise of `search` says it of bare words, so a type would say it twice.
fn kept(words: &[u64; BLOCK_WORDS]) -> [u64; BLOCK_WORDS]
    ensures { FiveWords result × (row_of_words result ≡ row_of_words words.now) }
{
    [words[0], words[1], words[2], words[3], words[4] % 65536]
}

// A row with some of its places changed.
fn sum_of(row: &[u64; BLOCK_WORDS], changed: &[u64; BLOCK_WORDS]) -> [u64; BLOCK_WORDS]
    requires { FiveWords row.now × FiveWords changed.now }
    ensures { FiveWords result × (row_of_words result ≡ difference (row_of_words row.now) (row_of_words changed.now)) }
{
    [
        row[0] ^ changed[0],
        row[1] ^ changed[1],
        row[2] ^ changed[2],
        row[3] ^ changed[3],
        row[4] ^ changed[4],
    ]
}
