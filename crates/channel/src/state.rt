// The channel's state: its rule, and what a block makes of it.
ghost use Rattle.std.specs.Prelude.{◌≡◌, ◌+◌, ◌%◌, ◌≤◌, not, ◌&&◌, eqb, length};
ghost use Rattle.std.proofs.Math.Seq.{paste};
ghost use Rattle.channel.specs.Answers.{outcome, channel_after};
ghost use Rattle.channel.specs.State.{keeps_rule, is_waiting, as_waiting, after_joining, step_of};

use crate::layer3::BlockHeader;
use crate::{Channel, DATA_IN_BLOCK, MOST_GATHERED, Phase, Step, layer4};
use answers::Refusal;

impl Channel {
    // Takes one information block. A state outside its rule (11) and a block whose header is refused leave the channel
    // as it stood. Dropped, then as waiting: where the channel waits (8), for another SC than the expected one (8), for
    // a fourteenth block (9). Else the block is joined on: "taken", or with LF what the message's own tests say (6, 4,
    // 14, 7, or the message).
    pub(crate) fn take(&mut self, information: &[u8]) -> Result<Step, Refusal>
        ensures { channel_after (outcome result) self.new ≡ step_of self.old information.now }
    {
        if !self.keeps_rule() {
            return Err(Refusal::OutsideRule);
        }
        let header = BlockHeader::read(information)?;
        if !self.expects(header) {
            self.drop_gathered(header);
            return Err(Refusal::OutOfStep);
        }
        if MOST_GATHERED <= self.gathered {
            self.drop_gathered(header);
            return Err(Refusal::TooMany);
        }
        self.join_on(header, &information[2..])
    }

    // Whether length and expected SC are as the phase has them.
    #[tactic(auto, unfolding(crate::specs::State::keeps_rule))]
    fn keeps_rule(&self) -> bool
        ensures { result ≡ keeps_rule self.now }
    {
        self.expected <= 15
            && match self.phase {
                Phase::Waiting => self.gathered == 0 && self.expected == 0,
                Phase::Ready => self.gathered == 0,
                Phase::Gathering => {
                    (DATA_IN_BLOCK..=MOST_GATHERED).contains(&self.gathered)
                        && self.gathered % DATA_IN_BLOCK == 0
                }
            }
    }

    // Whether a block goes on with what is gathered, or begins a message.
    fn expects(&self, header: BlockHeader) -> bool
        ensures { result ≡ (not (is_waiting self.now.phase) && eqb header.sc self.now.expected) }
    {
        self.phase != Phase::Waiting && header.sc == self.expected
    }

    // Drops what was gathered, then as waiting: LF makes the channel ready for the next block. No byte changes.
    #[tactic(auto, unfolding(crate::specs::State::as_waiting))]
    fn drop_gathered(&mut self, header: BlockHeader)
        ensures { self.new ≡ as_waiting self.old header.lf header.sc }
    {
        self.gathered = 0;
        if header.lf {
            self.phase = Phase::Ready;
            self.expected = header.next_sc();
        } else {
            self.phase = Phase::Waiting;
            self.expected = 0;
        }
    }

    // Joins twenty bytes on. With LF all that is gathered is read as a message, and the channel is ready for the next.
    fn join_on(&mut self, header: BlockHeader, twenty: &[u8]) -> Result<Step, Refusal>
        requires { (self.old.gathered ≤ 240) × (length twenty.now ≡ 20) }
        ensures { channel_after (outcome result) self.new ≡ after_joining (paste self.old.bytes self.old.gathered twenty.now 20) (self.old.gathered + 20) header.lf ((header.sc + 1) % 16) }
    {
        let end = self.gathered + DATA_IN_BLOCK;
        self.bytes[self.gathered..end].copy_from_slice(twenty);
        self.expected = header.next_sc();
        if header.lf {
            self.gathered = 0;
            self.phase = Phase::Ready;
            layer4::read(&self.bytes[..end]).map(Step::Message)
        } else {
            self.gathered = end;
            self.phase = Phase::Gathering;
            Ok(Step::Taken)
        }
    }
}
