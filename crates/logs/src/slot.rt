// The next slot's line, read forward where it stands in a piece, so that nobody has to look for its end first. What is found here is
// found only to be good (`NextSlot`): any other line is left to be judged in line.rt.
ghost use Rattle.std.specs.Prelude.{◌≡◌, IfSome};
ghost use Rattle.logs.specs.Machine.{NextSlot, Numeral};

use crate::{Counts, count};

const MOST_DIGITS: usize = 6;

// The digits, a tab, an outcome and the line feed.
const LONGEST_SLOT: usize = 9;

// The outcome of the next slot's line, where that line begins the piece, and what follows it. The tests are joined by `&`, since one
// that waits for another costs a branch: with `&&` the reader takes a quarter more time.
pub(crate) fn next_slot(counts: Counts, piece: &[u8]) -> Option<(u8, &[u8])>
    ensures { IfSome result (λ r. NextSlot counts piece.now r.0 r.1.now) }
{
    let (number, digits) = numeral(piece.first_chunk()?)?;
    let [tab, outcome, line_feed, rest @ ..] = &piece[digits..] else {
        return None;
    };
    let is_next = (number.checked_sub(1) == Some(counts.slots))
        & (*tab == b'\t')
        & (*line_feed == b'\n')
        & count::is_outcome(*outcome);
    if counts.channel != 0 && is_next {
        Some((*outcome, rest))
    } else {
        None
    }
}

// The number that the first digits spell, six of them at most, and how many they are; none for a leading zero.
fn numeral(text: &[u8; LONGEST_SLOT]) -> Option<(u32, usize)>
    ensures { IfSome result (λ r. Numeral text.now r.1 r.0) }
{
    if text[0] == b'0' {
        return None;
    }
    let mut number = 0;
    for i in 0..MOST_DIGITS {
        if !text[i].is_ascii_digit() {
            return Some((number, i));
        }
        number = number * 10 + u32::from(text[i] - b'0');
    }
    Some((number, MOST_DIGITS))
}
