// The circle of 273 in words: it is laid down twice, one round behind the other, so that a row shifted round by any number
// of positions is a part of it.
ghost use Rattle.std.specs.Prelude.{◌≡◌, Bool, true, List, ◌↔◌, ℕ, ◌+◌, ◌*◌, ◌/◌, ◌%◌, ◌<◌, ◌≤◌, length};
ghost use Rattle.code.specs.Code.{CodeWord};
ghost use Rattle.code.specs.Vote.{parity_sum, parity_sums};
ghost use Rattle.words.specs.Bytes.{bit_of, bit_in};
ghost use Rattle.words.specs.Circle.{Holds, Lies, Round};

use super::{BLOCK_WORDS, WORD_BITS};

// Two rounds take nine words; the tenth, zero, is for a part that begins in the ninth.
const ROUND_WORDS: usize = 10;

// A sum is of so many positions, and so many sums meet in each position.
pub(crate) const SUMS: usize = 17;

// The two rounds of a row.
#[derive(Clone, Copy)]
pub struct Circle {
    pub words: [u64; ROUND_WORDS],
}

impl Circle {
    // A row of at most 273 places, twice round: its second round begins at place 273, which is bit 17 of word 4.
    pub(crate) fn of(row: &[u64; BLOCK_WORDS]) -> Circle
        ensures { (bits : List Bool) → length bits ≤ 273 → Lies row.now bits → Round result.words bits }
    {
        Circle {
            words: [
                row[0],
                row[1],
                row[2],
                row[3],
                row[4] | (row[0] << 17),
                part(row, 47),
                part(row, 111),
                part(row, 175),
                part(row, 239),
                0,
            ],
        }
    }

    // The 64 positions from `at` on.
    pub(crate) fn positions(&self, at: usize) -> u64
        requires { (0 < at % 64) × (at < 576) }
        ensures { Holds result (bit_in 64 self.now.words) at }
    {
        part(&self.words, at)
    }

    // Whether the row is a code word: its first 128 sums are even, and 82 in a row are enough.
    pub(crate) fn is_even(&self) -> bool
        ensures { (bits : List Bool) → length bits ≡ 272 → Round self.now.words bits → (result ≡ true) ↔ CodeWord bits }
    {
        (self.sum_word(0) | self.sum_word(1)) == 0
    }

    // All 273 sums, as a row: 17 of them are in the last word.
    pub(crate) fn sums(&self) -> [u64; BLOCK_WORDS]
        ensures { (bits : List Bool) → Round self.now.words bits → Lies result (parity_sums bits) }
    {
        [
            self.sum_word(0),
            self.sum_word(1),
            self.sum_word(2),
            self.sum_word(3),
            self.sum_word(4) % 131072,
        ]
    }

    // 64 parity sums, from shift 64 i on.
    fn sum_word(&self, i: usize) -> u64
        requires { i < 5 }
        ensures { (bits : List Bool) → Round self.now.words bits → (k : ℕ) → k < 64 → 64 * i + k < 273 → bit_of result k ≡ parity_sum bits (64 * i + k) }
    {
        let mut odd = 0;
        for position in code::check_positions() {
            odd ^= self.positions(WORD_BITS * i + position);
        }
        odd
    }
}

// The 64 places of some words from `at` on: what is left of its word, and the beginning of the next. It is never a word's
// first place, and no check position is one, counted forward or back.
fn part(words: &[u64], at: usize) -> u64
    requires { (0 < at % 64) × (at / 64 + 1 < length words.now) }
    ensures { Holds result (bit_in 64 words.now) at }
{
    let here = at % WORD_BITS;
    (words[at / WORD_BITS] >> here) | (words[at / WORD_BITS + 1] << (WORD_BITS - here))
}
