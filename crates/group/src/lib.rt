// Groups of document 01, with the repeats of ticket 2: a group state joins the data of up to fifteen messages of one
// service number in a lent buffer.
#![tactic(auto)]

ghost use Rattle.std.specs.Prelude.{◌≡◌};
ghost use Rattle.answers.specs.Numbers.{paper};
ghost use Rattle.group.specs.Answers.{made, told_join};
ghost use Rattle.group.specs.State.{new_of, join_of};

mod state;

use answers::Refusal;
use channel::{Fields, LAST_NUMBER};

#[derive(Clone, Copy, PartialEq, Eq)]
pub enum Phase {
    Idle,
    Gathering,
}

// A group of one service number: the bytes held and the messages joined so far, and of the message last joined on its CI
// and the length of its data. Numbers beside a lent buffer, as document 01 has it.
#[derive(Clone, Copy)]
pub struct Group {
    pub number: u16,
    pub phase: Phase,
    pub held: usize,
    pub messages: u8,
    pub ci: u8,
    pub last_length: usize,
}

// The answer to being asked for a state, and the state: a struct, since a refusal comes with a state too, that of number 0.
#[derive(Clone, Copy)]
pub struct Made {
    pub answer: Result<(), Refusal>,
    pub group: Group,
}

// What comes of a message that is not refused; `Whole` is the answer "group", with the group's length.
#[derive(Clone, Copy)]
pub enum Step {
    Taken,
    Repeat,
    Whole(usize),
}

// The answer to a message, and the state that it leaves: a struct, since a refusal leaves one too.
#[derive(Clone, Copy)]
pub struct Stepped {
    pub answer: Result<Step, Refusal>,
    pub group: Group,
}

impl Group {
    // The limits of a group: 15 messages, and 255 bytes for each.
    pub const MOST_MESSAGES: u8 = 15;

    pub const MOST_BYTES: usize = 3825;

    // A fresh state for a service number. Refused, with the fresh state of number 0: a number above 16,383 (11).
    #[tactic(auto, unfolding(crate::specs::State::new_of))]
    pub fn new(number: u16) -> Made
        ensures { made (paper result.answer) result.group ≡ new_of number }
    {
        if LAST_NUMBER < number {
            Made {
                answer: Err(Refusal::OutsideRule),
                group: Group::idle(0),
            }
        } else {
            Made {
                answer: Ok(()),
                group: Group::idle(number),
            }
        }
    }

    // Takes one message, its fields and its data. Refused, with the state as it stood: a buffer shorter than 3,825
    // bytes (10); a state outside its rule, a field over its width or data over 255 bytes (11); another service number
    // or COM (13). The message last joined on, once more, is a "repeat" and changes nothing. Then by First and CI: 8 or
    // 9, with the state idle; or the data is joined on, "taken" or "group". A refusal changes no byte of the buffer, a
    // joining those of its data.
    pub fn join(mut self, message: Fields, data: &[u8], buffer: &mut [u8]) -> Stepped
        ensures { told_join result buffer.new ≡ join_of self message «data».now buffer.old }
    {
        let answer = self.take(message, data, buffer);
        Stepped {
            answer,
            group: self,
        }
    }
}
