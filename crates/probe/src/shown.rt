// How values stand in an answer. A value that is several fields has a tab between them.
use answers::Refusal;
use block::BLOCK_WORDS;
use std::alloc::{AllocError, Global};
use std::fmt;
use std::fmt::{Display, Formatter};

// A value of another crate, as docs/PROBE.md has it.
#[derive(Clone, Copy)]
pub(crate) struct Shown<'a, T>(pub &'a T);

// Bytes in hexadecimal, and `.` where there are none.
#[derive(Clone, Copy)]
pub(crate) struct Bytes<'a>(pub &'a [u8]);

// The word of a success, or the number of the refusal.
#[derive(Clone, Copy)]
pub(crate) struct Outcome<'a, T>(pub &'a str, pub &'a Result<T, Refusal>);

// As many bytes as are spelled at once: a text that is written digit by digit takes five times as long.
const SPELLED: usize = 256;

impl Display for Bytes<'_> {
    fn fmt<W: fmt::Write>(&self, f: &mut Formatter<W>) -> fmt::Result {
        if self.0.is_empty() {
            return f.write_str(".");
        }
        let mut room = [[0; 2]; SPELLED];
        for bytes in self.0.chunks(SPELLED) {
            for (digits, byte) in room.iter_mut().zip(bytes) {
                *digits = [text::first_digit(*byte), text::second_digit(*byte)];
            }
            // They are no more than that, but a proof knows nothing of a chunk.
            let digits = room[..bytes.len().min(SPELLED)].as_flattened();
            f.write_str(str::from_utf8(digits).map_err(|_| fmt::Error)?)?;
        }
        Ok(())
    }
}

impl<T> Display for Outcome<'_, T> {
    fn fmt<W: fmt::Write>(&self, f: &mut Formatter<W>) -> fmt::Result {
        match self.1 {
            Ok(_) => f.write_str(self.0),
            Err(refusal) => write!(f, "{refusal}"),
        }
    }
}

impl Display for Shown<'_, bool> {
    fn fmt<W: fmt::Write>(&self, f: &mut Formatter<W>) -> fmt::Result {
        write!(f, "{}", u8::from(*self.0))
    }
}

// The 16 digits of a binary64's bits, and sixteen `n` for what is no number.
impl Display for Shown<'_, f64> {
    fn fmt<W: fmt::Write>(&self, f: &mut Formatter<W>) -> fmt::Result {
        let number = *self.0;
        if number.is_nan() {
            return f.write_str("nnnnnnnnnnnnnnnn");
        }
        write!(f, "{:016x}", number.to_bits())
    }
}

// A row, each of its words in 16 digits.
impl Display for Shown<'_, [u64; BLOCK_WORDS]> {
    fn fmt<W: fmt::Write>(&self, f: &mut Formatter<W>) -> fmt::Result {
        let [a, b, c, d, e] = *self.0;
        write!(f, "{a:016x}\t{b:016x}\t{c:016x}\t{d:016x}\t{e:016x}")
    }
}

// The answer of a function that wrote to what was lent, and how much: 0 where it refused.
pub(crate) fn written(
    alloc: Global,
    success: &str,
    told: Result<usize, Refusal>,
    output: &[u8],
) -> Result<String, AllocError> {
    let count = told.unwrap_or(0);
    format!(in alloc; "{}\t{count}\t{}", Outcome(success, &told), Bytes(output))
}
