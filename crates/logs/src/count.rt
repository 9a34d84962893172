// The counts of a log, and which of them some accepted log gives.
ghost use Rattle.std.specs.Prelude.{◌≡◌, true, cond, ◌-◌, ◌≤◌, ◌<◌};
ghost use Rattle.text.specs.Ascii.{byte};
ghost use Rattle.logs.specs.Log.{greatest_slot, is_corrected, is_outcome, counted, tuned, is_sound, is_counts};
ghost use Rattle.logs.specs.Reader.{is_before, line_number};

use crate::{Counts, GREATEST_SLOT};

// Whether some accepted log gives these counts.
#[tactic(auto, unfolding(crate::specs::Log::is_counts))]
pub fn is_counts(counts: Counts) -> bool
    ensures { result ≡ is_counts counts }
{
    band::is_channel(u32::from(counts.channel)) && counts.is_sound()
}

impl Counts {
    // Whether the counts agree with each other.
    #[tactic(auto, unfolding(crate::specs::Log::is_sound))]
    fn is_sound(self) -> bool
        ensures { result ≡ is_sound self }
    {
        let Some(dirty) = self.read.checked_sub(self.clean) else {
            return false;
        };
        let outcomes = u64::from(self.read)
            + u64::from(self.noword)
            + u64::from(self.check)
            + u64::from(self.missing);
        self.slots <= GREATEST_SLOT
            && u64::from(self.slots) == outcomes
            && dirty <= self.bits
            && u64::from(self.bits) <= 8 * u64::from(dirty)
    }

    // Whether these are the counts before some line.
    #[tactic(auto, unfolding(crate::specs::Reader::is_before))]
    pub(crate) fn is_before(self) -> bool
        ensures { result ≡ is_before self }
    {
        if !self.is_sound() {
            return false;
        }
        if self.channel == 0 {
            self.slots == 0
        } else {
            band::is_channel(u32::from(self.channel))
        }
    }

    // The counts of a log with its first line only.
    pub(crate) fn tuned_to(channel: u8) -> Self
        ensures { result ≡ tuned channel }
    {
        Counts {
            channel,
            ..Counts::default()
        }
    }

    // The counts with one slot more.
    pub(crate) fn with_slot(self, outcome: u8) -> Self
        requires sound { is_sound self ≡ true }
        requires room { self.slots < greatest_slot }
        ensures { result ≡ counted self outcome }
    {
        Counts {
            channel: self.channel,
            slots: self.slots + 1,
            read: self.read + u32::from(is_corrected(outcome)),
            clean: self.clean + u32::from(outcome == b'0'),
            bits: self.bits + bits_of(outcome),
            noword: self.noword + u32::from(outcome == b'n'),
            check: self.check + u32::from(outcome == b'c'),
            missing: self.missing + u32::from(outcome == b'-'),
        }
    }

    // The number of the line after these counts: the first line is before them, where there is a channel, and a line a slot.
    pub(crate) fn next_line(self) -> u32
        requires { self.slots ≤ greatest_slot }
        ensures { result ≡ line_number self }
    {
        if self.channel == 0 { 1 } else { self.slots + 2 }
    }
}

// `0` to `8`, `n`, `c` or `-`. No test waits for another, since no processor foresees which of them holds:
// with `||` a log takes a sixth more time.
#[tactic(auto, unfolding(crate::specs::Log::is_outcome))]
pub(crate) fn is_outcome(outcome: u8) -> bool
    ensures { result ≡ is_outcome outcome }
{
    is_corrected(outcome) | (outcome == b'n') | (outcome == b'c') | (outcome == b'-')
}

fn is_corrected(outcome: u8) -> bool
    ensures { result ≡ is_corrected outcome }
{
    matches!(outcome, b'0'..=b'8')
}

fn bits_of(outcome: u8) -> u32
    ensures value { result ≡ cond (is_corrected outcome) (outcome - byte "0") 0 }
    ensures upper_bound { result ≤ 8 }
{
    if is_corrected(outcome) {
        u32::from(outcome - b'0')
    } else {
        0
    }
}
