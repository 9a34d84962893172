// The long message channel of document 01, layers 3 and 4: a channel state takes information blocks of 22 bytes and
// gives messages.
#![tactic(auto)]

ghost use Rattle.std.specs.Prelude.{◌≡◌, ◌*◌, ◌<◌, ◌≤◌, ◌^◌, length};
ghost use Rattle.header.specs.Header.{header_from};
ghost use Rattle.channel.specs.Answers.{told_step};
ghost use Rattle.channel.specs.Layer4.{size_of, blocks_for};
ghost use Rattle.channel.specs.State.{fresh, step_of};

mod layer3;
mod layer4;
mod state;

pub use answers::INFORMATION_BYTES;
use answers::Refusal;

// The data in an information block, and the most that is gathered of a message, its header included, in bytes.
pub const DATA_IN_BLOCK: usize = 20;

pub const MOST_GATHERED: usize = 260;

// The greatest service number, and the most data of a message, in bytes.
pub const LAST_NUMBER: u16 = 16383;

pub const MOST_DATA: usize = 255;

#[derive(Clone, Copy, PartialEq, Eq)]
pub enum Phase {
    Waiting,
    Ready,
    Gathering,
}

// A channel: the bytes gathered so far are the first of `bytes`, and `expected` is the SC of the next block. An array with its length,
// as document 01 has it. The bytes stand first in the struct, which saves a copy of them at each step.
#[derive(Clone, Copy)]
pub struct Channel {
    pub bytes: [u8; MOST_GATHERED],
    pub gathered: usize,
    pub phase: Phase,
    pub expected: u8,
}

// The header of a message: its fields but for RFA and CAF, which are zero; `number` is the service number, `length`
// that of the data, and `size` that of the header, so that the data stands from byte `size` of the channel.
#[derive(Clone, Copy)]
pub struct Header {
    pub ri: u8,
    pub ci: u8,
    pub first: bool,
    pub last: bool,
    pub ext: bool,
    pub number: u16,
    pub command: bool,
    pub length: usize,
    pub size: usize,
}

// The fields of a message that a group joins and the writers take: EXT follows from the number, the data length from
// the data.
#[derive(Clone, Copy)]
pub struct Fields {
    pub ri: u8,
    pub ci: u8,
    pub first: bool,
    pub last: bool,
    pub number: u16,
    pub command: bool,
}

// What comes of a block that is not refused.
#[derive(Clone, Copy)]
pub enum Step {
    Taken,
    Message(Header),
}

// The answer to a block, and the channel that it leaves: a struct, since a refusal leaves one too.
#[derive(Clone, Copy)]
pub struct Stepped {
    pub answer: Result<Step, Refusal>,
    pub channel: Channel,
}

impl Channel {
    // A fresh channel waits for the end of a message.
    #[tactic(auto, unfolding(crate::specs::State::fresh))]
    pub fn new() -> Self
        ensures { result ≡ fresh }
    {
        Channel {
            bytes: [0; MOST_GATHERED],
            gathered: 0,
            phase: Phase::Waiting,
            expected: 0,
        }
    }

    // Takes one information block. Refused, with the channel as it stood: a state outside its rule (11), another
    // length than 22 (1), another channel (5), a wrong check (4). Then by the state, as `Channel::take` says.
    pub fn step(mut self, information: &[u8]) -> Stepped
        ensures { told_step result ≡ step_of self information.now }
    {
        let answer = self.take(information);
        Stepped {
            answer,
            channel: self,
        }
    }
}

// The bytes of a message's header, without EXT or with it.
pub fn header_size(ext: bool) -> usize
    ensures { result ≡ size_of ext }
{
    if ext { 5 } else { 4 }
}

// The least number of blocks that holds so many bytes; no number of bytes is too great.
pub fn blocks_for(bytes: usize) -> usize
    ensures { result ≡ blocks_for bytes }
{
    bytes.div_ceil(DATA_IN_BLOCK)
}

// The header that bytes are, the first byte highest.
pub(crate) fn header_from(bytes: &[u8]) -> u64
    requires { length bytes.now ≤ 5 }
    ensures { (result ≡ header_from bytes.now) × (result < 2 ^ (8 * length bytes.now)) }
{
    let mut header = 0;
    for byte in bytes {
        header = header * 256 + u64::from(*byte);
    }
    header
}
