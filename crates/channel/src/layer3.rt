// Layer 3: the header of an information block.
ghost use Rattle.std.specs.Prelude.{◌<◌};

use crate::INFORMATION_BYTES;
use answers::Refusal;

// The fields of a block's header that the channel goes by; DI may be either.
#[derive(Clone, Copy)]
pub struct BlockHeader {
    pub lf: bool,
    pub sc: u8,
    ghost four_bits: { sc < 16 },
}

impl BlockHeader {
    ghost use Rattle.std.specs.Prelude.{◌≡◌, ◌+◌, ◌%◌};
    ghost use Rattle.channel.specs.Headers.{ReadsHeader};

    // Reads the header of a block. Refused: another length than 22 (1), another channel (5), a wrong check (4).
    pub(crate) fn read(information: &[u8]) -> Result<Self, Refusal>
        ensures { ReadsHeader information.now result }
    {
        if information.len() != INFORMATION_BYTES {
            return Err(Refusal::WrongLength);
        }
        let header = crate::header_from(&information[..2]);
        let fields = header / 64;
        if fields / 64 % 16 != 10 {
            return Err(Refusal::OtherChannel);
        }
        if header::check(fields) != header % 64 {
            return Err(Refusal::HeaderCheck);
        }
        Ok(BlockHeader {
            lf: fields / 16 % 2 == 1,
            sc: (fields % 16) as u8,
        })
    }

    // The SC of the block after this one.
    pub(crate) fn next_sc(self) -> u8
        ensures { result ≡ (self.sc + 1) % 16 }
    {
        (self.sc + 1) % 16
    }
}
