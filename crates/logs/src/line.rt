// A line of a log, without its line feed, is compared with the text that it must be, so no number is read that could be too great.
ghost use Rattle.std.specs.Prelude.{◌≡◌, true, cond, Some, None};
ghost use Rattle.logs.specs.Decimal.{decimal};
ghost use Rattle.logs.specs.Log.{channel_up_to, is_next, is_sound, judged, last};
ghost use Rattle.text.specs.Fields.{same_as};
ghost use Rattle.band.specs.Band.{last_channel};

use crate::{Counts, GREATEST_SLOT, count};

// The counts with this line, where it is the one that comes after these.
#[tactic(auto, unfolding(crate::specs::Log::judged))]
pub(crate) fn judge(counts: Counts, line: &[u8]) -> Option<Counts>
    requires { is_sound counts ≡ true }
    ensures { result ≡ judged counts line.now }
{
    if counts.channel == 0 {
        Some(Counts::tuned_to(channel_of(line)?))
    } else {
        Some(counts.with_slot(next_outcome(counts.slots, line)?))
    }
}

// What stands before the number in a first line.
const NAME: &[u8; 8] = b"channel\t";

// The channel whose first line this is: `channel`, a tab and the channel's number. It is asked once a log, so each is tried.
fn channel_of(line: &[u8]) -> Option<u8>
    ensures { result ≡ channel_up_to last_channel line.now }
{
    let (name, number) = line.split_at_checked(NAME.len())?;
    if !text::same(name, NAME) {
        return None;
    }
    for channel in (1..=band::LAST_CHANNEL).rev() {
        if spells(number, u32::from(channel)) {
            return Some(channel);
        }
    }
    None
}

// The outcome, where this is the line of the slot after these: its number, a tab and an outcome.
#[tactic(auto, using(crate::proofs::Lines::next_parts, crate::proofs::Lines::next_short))]
fn next_outcome(slots: u32, line: &[u8]) -> Option<u8>
    ensures { result ≡ cond (is_next slots line.now) (Some (last line.now)) None }
{
    let [number @ .., tab, outcome] = line else {
        return None;
    };
    if slots < GREATEST_SLOT
        && *tab == b'\t'
        && count::is_outcome(*outcome)
        && spells(number, slots + 1)
    {
        Some(*outcome)
    } else {
        None
    }
}

// Whether the text is the number in decimal, compared from the last digit on.
fn spells(text: &[u8], number: u32) -> bool
    ensures { result ≡ same_as text.now (decimal number) }
{
    let mut text = text;
    let mut number = number;
    while number >= 10 {
        let Some((last, front)) = text.split_last() else {
            return false;
        };
        if *last != b'0' + (number % 10) as u8 {
            return false;
        }
        text = front;
        number /= 10;
    }
    text == [b'0' + number as u8].as_slice()
}
