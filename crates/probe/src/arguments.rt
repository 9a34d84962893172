// The arguments of a case: the fields of its line behind the command, read one after the other.
use std::alloc::{AllocError, Global};
use std::ops::RangeInclusive;

// The most bytes of an argument, but for a log or a piece of one.
const MOST_BYTES: usize = 32768;

// Why a line has no answer of a function.
#[derive(Debug, Drop)]
pub(crate) enum Unanswered {
    NoCase,
    OutOfMemory,
}

impl From<AllocError> for Unanswered {
    fn from(_error: AllocError) -> Self {
        Unanswered::OutOfMemory
    }
}

#[derive(Drop)]
pub(crate) struct Arguments<'a> {
    pub alloc: Global,
    line: &'a [u8],
    // The indices of the fields that have not been read.
    left: RangeInclusive<usize>,
}

// What one argument spells.
pub(crate) trait Argument: Sized {
    fn spelled(field: &[u8]) -> Option<Self>;
}

// What several arguments stand for, one after the other.
pub(crate) trait FromArguments: Sized {
    fn read(arguments: &mut Arguments<'_>) -> Result<Self, Unanswered>;
}

impl<'a> Arguments<'a> {
    pub(crate) fn of(line: &'a [u8], alloc: Global) -> Self {
        Arguments {
            alloc,
            line,
            left: 1..=text::arguments(line),
        }
    }

    fn next(&mut self) -> Result<&'a [u8], Unanswered> {
        let index = self.left.next().ok_or(Unanswered::NoCase)?;
        Ok(text::field(self.line, index))
    }

    // A number that its type can hold.
    pub(crate) fn number<T: TryFrom<u32>>(&mut self) -> Result<T, Unanswered>
    where
        T::Error: Drop,
    {
        let number = text::read_number(self.next()?, u32::MAX).ok_or(Unanswered::NoCase)?;
        T::try_from(number).map_err(|_| Unanswered::NoCase)
    }

    pub(crate) fn one<T: Argument>(&mut self) -> Result<T, Unanswered> {
        T::spelled(self.next()?).ok_or(Unanswered::NoCase)
    }

    // Bytes that are given or lent.
    pub(crate) fn bytes(&mut self) -> Result<Vec<u8>, Unanswered> {
        let bytes = self.log()?;
        if MOST_BYTES < bytes.len() {
            return Err(Unanswered::NoCase);
        }
        Ok(bytes)
    }

    // A log, or a piece of one, may fill its line.
    pub(crate) fn log(&mut self) -> Result<Vec<u8>, Unanswered> {
        let digits = self.next()?;
        let mut bytes = vec![in self.alloc; 0; digits.len() / 2]?;
        text::read_bytes(digits, &mut bytes).ok_or(Unanswered::NoCase)?;
        Ok(bytes)
    }

    // A case has no argument more than its command takes.
    pub(crate) fn end(&self) -> Result<(), Unanswered> {
        if self.left.is_empty() {
            Ok(())
        } else {
            Err(Unanswered::NoCase)
        }
    }
}

impl Argument for bool {
    fn spelled(field: &[u8]) -> Option<Self> {
        match field {
            b"0" => Some(false),
            b"1" => Some(true),
            _ => None,
        }
    }
}

impl<const N: usize> Argument for [u8; N] {
    fn spelled(field: &[u8]) -> Option<Self> {
        let mut bytes = [0; N];
        let count = text::read_bytes(field, &mut bytes)?;
        (count == N).then_some(bytes)
    }
}

// The 16 digits of a binary64's bits. The bits of what is no number are not asked for.
impl Argument for f64 {
    fn spelled(field: &[u8]) -> Option<Self> {
        Some(number_of(u64::from_be_bytes(Argument::spelled(field)?)))
    }
}

// Without the sign, all ones in the exponent and something behind it is no number, of which `f64::from_bits` takes none.
fn number_of(bits: u64) -> f64 {
    if 0x7ff0_0000_0000_0000 < bits % 0x8000_0000_0000_0000 {
        f64::NAN
    } else {
        f64::from_bits(bits)
    }
}
