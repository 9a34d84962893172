// The answer numbers of document 01, as one error enum for every crate above.
#![tactic(auto)]

ghost use Rattle.std.specs.Prelude.{◌≡◌, Some};
ghost use Rattle.std.specs.Fmt.{decimal};
ghost use Rattle.answers.specs.Numbers.{number_of};

use std::fmt;

// The information of a block, in bytes: what the block reader hands out and the channel takes.
pub const INFORMATION_BYTES: usize = 22;

// Why something was refused: the error of a `Result`. A success has no number.
#[derive(Clone, Copy)]
pub enum Refusal {
    WrongLength,
    NoCodeWord,
    CheckBits,
    HeaderCheck,
    OtherChannel,
    HeaderForm,
    CountOrPadding,
    OutOfStep,
    TooMany,
    TooShort,
    OutsideRule,
    BadLine,
    NotThisGroup,
    TooLong,
}

// The number that the table gives a refusal.
impl From<Refusal> for u8 {
    ghost from_gives = { λ refusal number. number ≡ number_of refusal };

    fn from(refusal: Refusal) -> u8 {
        match refusal {
            Refusal::WrongLength => 1,
            Refusal::NoCodeWord => 2,
            Refusal::CheckBits => 3,
            Refusal::HeaderCheck => 4,
            Refusal::OtherChannel => 5,
            Refusal::HeaderForm => 6,
            Refusal::CountOrPadding => 7,
            Refusal::OutOfStep => 8,
            Refusal::TooMany => 9,
            Refusal::TooShort => 10,
            Refusal::OutsideRule => 11,
            Refusal::BadLine => 12,
            Refusal::NotThisGroup => 13,
            Refusal::TooLong => 14,
        }
    }
}

// A refusal is written as its number.
impl fmt::Display for Refusal {
    ghost output = { λ refusal. Some (decimal (number_of refusal)) };

    fn fmt<W: fmt::Write>(&self, f: &mut fmt::Formatter<W>) -> fmt::Result {
        write!(f, "{}", u8::from(*self))
    }
}
