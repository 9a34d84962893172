// The (272,190) code of document 01, "The block": its generator, and the check positions with which the corrector
// votes. Beside these two tables the crate holds what is proved of them: specs/ says what a code word is, proofs/ why
// the vote finds it.
#![tactic(auto)]

ghost use Rattle.std.specs.Prelude.{◌≡◌};
ghost use Rattle.code.specs.Code.{generator};
ghost use Rattle.code.specs.Vote.{check_positions};

// The powers of the generator x^82 + x^77 + .. + 1. The leading one has no place in the row of the lower coefficients.
const GENERATOR_POWERS: [usize; 18] = [
    82, 77, 76, 71, 67, 66, 56, 52, 48, 40, 36, 34, 24, 22, 18, 10, 4, 0,
];

// The seventeen residues 1, 2, 4, 8, 16, 32, .. of document 01, each times 67, modulo 273: the positions whose sum is
// even in every code word, and in every shift of it round the circle of 273.
const CHECK_POSITIONS: [usize; 17] = [
    67, 134, 268, 263, 253, 233, 193, 91, 195, 113, 170, 182, 234, 85, 117, 179, 226,
];

// The generator's coefficients below x^82, highest power first.
#[tactic(auto, unfolding(crate::specs::Code::generator))]
pub fn generator_row() -> [bool; 82]
    ensures { result ≡ generator }
{
    let mut row = [false; 82];
    gf2::fill_lower(&GENERATOR_POWERS, &mut row);
    row
}

#[tactic(auto, unfolding(crate::specs::Vote::check_positions))]
pub fn check_positions() -> [usize; 17]
    ensures { result ≡ check_positions }
{
    CHECK_POSITIONS
}
