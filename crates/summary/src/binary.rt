// A binary64 in decimal, exactly. Those that a row shows are 0 or lie from 2^-20 to 8, so they are whole multiples of 2^-72, and such a
// multiple fits 128 bits.
ghost use Rattle.std.specs.Prelude.{◌≡◌, ◌*◌, ◌^◌, ◌<◌, IfSome};
ghost use Rattle.std.specs.Float.Ieee.Positive.{num, den};
ghost use Rattle.summary.specs.Export.{same_bits, decimals, expansion};
ghost use Rattle.summary.specs.Building.{Grows, Measured, option_cell};

use crate::building::Text;

// The digit that the bits of a binary64 leave out, and the sign.
const HIDDEN: u64 = 1 << 52;

const SIGN: u64 = 1 << 63;

// 1 in units of 2^-72.
const ONE: u128 = 1 << 72;

// The most decimals that a binary64 has.
const MOST_DECIMALS: u32 = 1074;

// Whether two numbers have the same bits; the second is no NaN.
#[tactic(auto, using(crate::proofs::Same::measured_number))]
pub(crate) fn same_bits(given: f64, own: f64) -> bool
    requires { Measured own }
    ensures { result ≡ same_bits given own }
{
    !given.is_nan() && given.to_bits() == own.to_bits()
}

// A cell: the number exactly, or nothing where there is none.
#[tactic(auto, unfolding(crate::specs::Export::cell))]
pub(crate) fn put_cell(text: &mut Text, number: Option<f64>)
    requires { IfSome number Measured }
    ensures { Grows text.old (option_cell number) text.new }
{
    if let Some(number) = number {
        put_exactly(text, number);
    }
}

fn put_exactly(text: &mut Text, number: f64)
    requires { Measured number }
    ensures { Grows text.old (expansion (num number) (den number)) text.new }
{
    let units = units(number);
    text.put_number((units / ONE) as u64);
    let rest = units % ONE;
    if rest != 0 {
        text.put(b".");
        put_decimals(text, rest);
    }
}

// The number in units of 2^-72.
#[tactic(auto, using(crate::proofs::Same::measured_number, crate::proofs::Units::zero_units))]
fn units(number: f64) -> u128
    requires { Measured number }
    ensures value { result * den number ≡ num number * 2 ^ 72 }
    ensures bound { result < 2 ^ 76 }
{
    let bits = number.to_bits();
    if bits == 0 {
        return 0;
    }
    // The number is digits * 2^(field - 1075).
    let field = bits % SIGN / HIDDEN;
    u128::from(HIDDEN + bits % HIDDEN) << (field - 1003)
}

// The decimals of a fraction by long division, until nothing is left.
fn put_decimals(text: &mut Text, fraction: u128)
    requires { fraction < 2 ^ 72 }
    ensures { Grows text.old (decimals 1074 fraction (2 ^ 72)) text.new }
{
    let mut rest = fraction;
    for _ in 0..MOST_DECIMALS {
        if rest == 0 {
            return;
        }
        let tenfold = 10 * rest;
        text.put(&[b'0' + (tenfold / ONE) as u8]);
        rest = tenfold % ONE;
    }
}
