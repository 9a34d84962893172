// The group's state: its rule, and what a message makes of it.
ghost use Rattle.std.specs.Prelude.{◌≡◌, ◌+◌, ◌<◌, ◌≤◌, length};
ghost use Rattle.answers.specs.Numbers.{paper};
ghost use Rattle.group.specs.Answers.{outcome, group_after};
ghost use Rattle.group.specs.State.{idle, length_holds, keeps_rule, message_fits, is_repeat, joined_on, join_of};
ghost use Rattle.group.specs.Follows.{follows_of};

use crate::{Group, Phase, Step};
use answers::Refusal;
use channel::{Fields, LAST_NUMBER, MOST_DATA};

impl Group {
    // The idle state of a service number, with nothing counted.
    pub(crate) fn idle(number: u16) -> Self
        ensures { result ≡ idle number }
    {
        Group {
            number,
            phase: Phase::Idle,
            held: 0,
            messages: 0,
            ci: 0,
            last_length: 0,
        }
    }

    // Takes one message: the tests in order, and its data joined on. Fields and data stay two parameters, here and below: the
    // definitions speak of both by name, and a struct of the two would only be taken apart again.
    pub(crate) fn take(
        &mut self,
        message: Fields,
        data: &[u8],
        buffer: &mut [u8],
    ) -> Result<Step, Refusal>
        ensures { group_after (outcome result) self.new buffer.new ≡ join_of self.old message «data».now buffer.old }
    {
        if buffer.len() < Group::MOST_BYTES {
            return Err(Refusal::TooShort);
        }
        if !self.keeps_rule() || !message_fits(message, data.len()) {
            return Err(Refusal::OutsideRule);
        }
        if message.number != self.number || message.command {
            return Err(Refusal::NotThisGroup);
        }
        if self.is_repeat(message, data, buffer) {
            return Ok(Step::Repeat);
        }
        if message.first {
            *self = Group::idle(self.number);
        } else if let Err(refusal) = self.follows(message) {
            *self = Group::idle(self.number);
            return Err(refusal);
        }
        Ok(self.join_on(message, data, buffer))
    }

    // Whether the numbers are as the phase has them.
    #[tactic(auto, unfolding(crate::specs::State::keeps_rule))]
    fn keeps_rule(&self) -> bool
        ensures { result ≡ keeps_rule self.now }
    {
        self.number <= LAST_NUMBER
            && match self.phase {
                Phase::Idle => {
                    self.held == 0 && self.messages == 0 && self.ci == 0 && self.last_length == 0
                }
                Phase::Gathering => {
                    (1..=Group::MOST_MESSAGES).contains(&self.messages)
                        && self.held <= MOST_DATA * usize::from(self.messages)
                        && self.ci <= 3
                        && self.length_holds()
                }
            }
    }

    // Whether the message last joined on may have so many of the bytes held.
    fn length_holds(&self) -> bool
        ensures { result ≡ length_holds self.now.held self.now.messages self.now.last_length }
    {
        if self.messages <= 1 {
            return self.last_length == self.held;
        }
        self.last_length <= MOST_DATA
            && self.last_length <= self.held
            && self.held - self.last_length <= MOST_DATA * usize::from(self.messages - 1)
    }

    // Whether a message is the one last joined on, once more: that was a First where it is the only one, and no Last. Its
    // data is looked at last, since a message that steps on has another CI.
    #[tactic(auto, unfolding(crate::specs::State::is_repeat))]
    fn is_repeat(&self, message: Fields, data: &[u8], buffer: &[u8]) -> bool
        requires { (self.now.last_length ≤ self.now.held) × (self.now.held ≤ length buffer.now) }
        ensures { result ≡ is_repeat self.now message «data».now buffer.now }
    {
        self.phase != Phase::Idle
            && message.ci == self.ci
            && message.first == (self.messages == 1)
            && !message.last
            && text::same(data, &buffer[self.held - self.last_length..self.held])
    }

    // Whether a message that is no First goes on with what is gathered. Refused: an idle state (8), a CI that is not one
    // more (8), a sixteenth message (9).
    fn follows(&self, message: Fields) -> Result<(), Refusal>
        requires { self.now.ci ≤ 3 }
        ensures { paper result ≡ follows_of self.now message }
    {
        if self.phase == Phase::Idle || message.ci != (self.ci + 1) % 4 {
            return Err(Refusal::OutOfStep);
        }
        if Group::MOST_MESSAGES <= self.messages {
            return Err(Refusal::TooMany);
        }
        Ok(())
    }

    // Writes the data at the counted place. With Last the group is whole.
    fn join_on(&mut self, message: Fields, data: &[u8], buffer: &mut [u8]) -> Step
        requires { (self.old.messages < 15) × (self.old.held + length «data».now ≤ length buffer.old) }
        ensures { group_after (outcome (Ok result)) self.new buffer.new ≡ joined_on self.old message «data».now buffer.old }
    {
        let end = self.held + data.len();
        buffer[self.held..end].copy_from_slice(data);
        if message.last {
            *self = Group::idle(self.number);
            return Step::Whole(end);
        }
        *self = Group {
            number: self.number,
            phase: Phase::Gathering,
            held: end,
            messages: self.messages + 1,
            ci: message.ci,
            last_length: data.len(),
        };
        Step::Taken
    }
}

// Whether a message is within its widths.
#[tactic(auto, unfolding(crate::specs::State::message_fits))]
fn message_fits(message: Fields, length: usize) -> bool
    ensures { result ≡ message_fits message length }
{
    message.number <= LAST_NUMBER && length <= MOST_DATA && message.ri <= 3 && message.ci <= 3
}
