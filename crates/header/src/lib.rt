// Headers of the long message channel (document 01): the six-bit check. How fields stand in a header, and that reading
// and writing undo each other, is in specs/Header.antt and in proofs/, once for headers of any fields.
#![tactic(auto)]

ghost use Rattle.std.specs.Prelude.{◌≡◌, ◌%◌, ◌<◌};
ghost use Rattle.std.specs.Int.Count.{ones};
ghost use Rattle.header.specs.Header.{check};

// For each check bit, the highest first, the bits of a header that it sums: bit n where x^(n + 6) leaves that check bit as it
// is divided by x^6 + x^4 + x^3 + 1.
const SUMMED: [u64; 6] = [
    0xa098_f2b7_4131_e56e,
    0xd04c_795b_a098_f2b7,
    0x48be_ce1a_917d_9c35,
    0x04c7_95ba_098f_2b74,
    0x8263_cadd_04c7_95ba,
    0x4131_e56e_8263_cadd,
];

// The six check bits over the fields of a header, both as numbers. Zeros in front do not change a
// remainder, so all 64 bits of `fields` are summed, whatever the header's width.
pub fn check(fields: u64) -> u64
    ensures { result ≡ check 64 fields }
{
    let mut bits = 0;
    for mask in SUMMED {
        bits = bits * 2 + parity(fields & mask);
    }
    bits
}

// 1 where a number has an odd number of ones, else 0.
fn parity(x: u64) -> u64
    ensures { (result ≡ ones x % 2) × (result < 2) }
{
    u64::from(x.count_ones() % 2)
}
