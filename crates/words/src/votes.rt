// The vote on 64 positions at a time: seventeen sums meet in each, and how many of them are odd is counted in bit planes.
ghost use Rattle.std.specs.Prelude.{◌≡◌, Bool, List, ℕ, ◌+◌, ◌-◌, ◌*◌, ◌/◌, ◌%◌, ◌<◌, leb, ltb};
ghost use Rattle.gf2.specs.Poly.{bit};
ghost use Rattle.code.specs.Vote.{odd_sums, majority};
ghost use Rattle.words.specs.Bytes.{bit_of, bit_in};
ghost use Rattle.words.specs.Circle.{Holds, Round, counted, Voted};

use super::circle::{Circle, SUMS};
use super::{BLOCK_WORDS, WORD_BITS};

// The positions of a block, and behind them the left-off one.
const CIRCLE: usize = 273;

// A code word that differs in more places is not taken.
const MOST_CORRECTED: u32 = 8;

// Which places the vote turns, and how many.
#[derive(Clone, Copy)]
pub struct Turned {
    pub changed: [u64; BLOCK_WORDS],
    pub count: u8,
}

// 64 counts, each with its bit of one weight in one word.
#[derive(Clone, Copy)]
pub struct Planes {
    pub ones: u64,
    pub twos: u64,
    pub fours: u64,
    pub eights: u64,
    pub sixteens: u64,
}

impl Planes {
    // The first bit of each count.
    fn first(bits: u64) -> Planes
        ensures { (k : ℕ) → counted result k ≡ bit (bit_of bits k) }
    {
        Planes {
            ones: bits,
            twos: 0,
            fours: 0,
            eights: 0,
            sixteens: 0,
        }
    }

    // Two bits more for each count; what is carried goes on from plane to plane.
    fn with_two(self, a: u64, b: u64) -> Planes
        ensures { (k : ℕ) → counted self k < 30 → counted result k ≡ counted self k + bit (bit_of a k) + bit (bit_of b k) }
    {
        let half = a ^ b;
        let two = (a & b) | (half & self.ones);
        let four = two & self.twos;
        let eight = four & self.fours;
        let sixteen = eight & self.eights;
        Planes {
            ones: half ^ self.ones,
            twos: two ^ self.twos,
            fours: four ^ self.fours,
            eights: eight ^ self.eights,
            sixteens: sixteen ^ self.sixteens,
        }
    }

    // Where a count is nine or more: sixteen, or eight and something.
    fn nine(self) -> u64
        ensures { (k : ℕ) → bit_of result k ≡ leb majority (counted self k) }
    {
        self.sixteens | (self.eights & (self.ones | self.twos | self.fours))
    }
}

// The places that the vote turns, where they are at most eight. A ninth ends it.
pub(crate) fn turn(circle: &Circle) -> Option<Turned>
    ensures { (sums : List Bool) → Round circle.now.words sums → Voted sums result }
{
    let mut changed = [0; BLOCK_WORDS];
    let mut count: u32 = 0;
    for i in 0..BLOCK_WORDS {
        let turned = within(i) & turned_word(circle, i);
        count += turned.count_ones();
        if MOST_CORRECTED < count {
            return None;
        }
        changed[i] = turned;
    }
    Some(Turned {
        changed,
        count: count as u8,
    })
}

// The bits of a word that are positions of the block: the left-off one, and what is behind it, is never turned. That the index is
// one of five words is asked for by each that takes it: a range that a loop counts, for which a type would be no plainer.
fn within(i: usize) -> u64
    requires { i < 5 }
    ensures { (k : ℕ) → k < 64 → bit_of result k ≡ ltb (64 * i + k) 272 }
{
    if i == 4 { 0xffff } else { u64::MAX }
}

// In which of 64 positions, from 64 i on, the majority of the sums is odd.
fn turned_word(circle: &Circle, i: usize) -> u64
    requires { i < 5 }
    ensures { (sums : List Bool) → Round circle.now.words sums → (k : ℕ) → k < 64 → 64 * i + k < 273 → bit_of result k ≡ leb majority (odd_sums sums (64 * i + k)) }
{
    let positions = code::check_positions();
    let mut counts = Planes::first(met(circle, i, positions[0]));
    for pair in 0..SUMS / 2 {
        counts = counts.with_two(
            met(circle, i, positions[2 * pair + 1]),
            met(circle, i, positions[2 * pair + 2]),
        );
    }
    counts.nine()
}

// Of 64 positions, from 64 i on, the sums that have a check position there.
fn met(circle: &Circle, i: usize, position: usize) -> u64
    requires { (i < 5) × (position < 273) × (0 < (273 - position) % 64) }
    ensures { Holds result (bit_in 64 circle.now.words) (64 * i + 273 - position) }
{
    circle.positions(WORD_BITS * i + CIRCLE - position)
}
