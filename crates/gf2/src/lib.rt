// Polynomials over the field of two elements, as rows of bits, highest power first: the ground of
// document 01's three checks, of 6, 14 and 82 bits. A divisor x^d + .. is lent as the row of its d lower coefficients.
#![tactic(auto)]

ghost use Rattle.std.specs.Prelude.{◌≡◌, ◌-◌, ◌<◌, ◌≤◌, length};
ghost use Rattle.gf2.specs.Poly.{bit, ◌⊕◌, add, divided, lower};

// A bit as a number: `u64::from`, with its public promise (`bit`).
pub fn number(b: bool) -> u64
    ensures { (result ≡ bit b) × (result < 2) }
{
    u64::from(b)
}

// The sum of two bits: `^`, with its public promise (`⊕`).
pub fn sum(a: bool, b: bool) -> bool
    ensures { result ≡ a ⊕ b }
{
    a ^ b
}

// Adds `low` into the leading places of `row`.
fn add_in(low: &[bool], row: &mut [bool])
    requires { length low.now ≤ length row.old }
    ensures { row.new ≡ add low.now row.old }
{
    for j in 0..low.len() {
        row[j] ^= low[j];
    }
}

// Long division in place: the leading places of `row` become the quotient, as many last places as `low` has
// the remainder. A row shorter than `low` is its own remainder.
pub fn divide(row: &mut [bool], low: &[bool])
    ensures { row.new ≡ divided low.now (length row.old - length low.now) row.old }
{
    for i in 0..row.len().saturating_sub(low.len()) {
        // The divisor's leading 1 meets the place `i`, whose bit is the quotient's and stays.
        if row[i] {
            add_in(low, &mut row[i + 1..]);
        }
    }
}

// Fills a row with the coefficients of the polynomial with these powers, below the power that the row is long.
pub fn fill_lower(powers: &[usize], row: &mut [bool])
    ensures { row.new ≡ lower (length row.old) powers.now }
{
    for place in 0..row.len() {
        row[place] = powers.contains(&(row.len() - 1 - place));
    }
}
