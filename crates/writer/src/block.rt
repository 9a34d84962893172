// The information blocks that a writer writes.
ghost use Rattle.std.specs.Prelude.{[], ◌∷◌, ◌++◌, ◌≡◌, ◌*◌, ◌/◌, ◌+◌, ◌<◌, ◌≤◌, ◌^◌, length, drop};
ghost use Rattle.std.proofs.Math.Seq.{paste};
ghost use Rattle.gf2.specs.Poly.{bit};
ghost use Rattle.header.specs.Header.{with_check, header, bytes_of};
ghost use Rattle.channel.specs.Layer3.{layer3};
ghost use Rattle.writer.specs.Message.{block_of, cut, flat};

use channel::{DATA_IN_BLOCK, INFORMATION_BYTES};

// The fields of a block's header that are not the same in every one.
#[derive(Clone, Copy)]
pub struct BlockFields {
    pub di: bool,
    pub lf: bool,
    pub sc: u8,
    ghost four_bits: { sc < 16 },
}

impl BlockFields {
    // Writes a block of these fields and twenty bytes to a place.
    fn put(self, twenty: &[u8], output: &mut [u8], at: usize)
        requires { (length twenty.now ≡ 20) × (at + 22 ≤ length output.old) }
        ensures { output.new ≡ paste output.old at (block_of self.di self.lf self.sc twenty.now) 22 }
    {
        let data_at = at + 2;
        put_header(self.header(), &mut output[at..data_at]);
        output[data_at..data_at + twenty.len()].copy_from_slice(twenty);
    }

    // The header of such a block, as a number.
    fn header(self) -> u64
        ensures { result ≡ header layer3 (10 ∷ bit self.di ∷ bit self.lf ∷ self.sc ∷ []) }
    {
        with_check(((20 + u64::from(self.di)) * 2 + u64::from(self.lf)) * 16 + u64::from(self.sc))
    }
}

// Cuts twenty bytes a block, LF in the last, SC stepping on. By number, since the place of each block in the output is counted too.
pub(crate) fn put_blocks(bytes: &[u8], di: bool, sc: u8, output: &mut [u8])
    requires { (22 * (length bytes.now / 20) ≤ length output.old) × (sc < 16) }
    ensures { output.new ≡ flat (cut (length bytes.now / 20) di sc bytes.now) ++ drop (22 * (length bytes.now / 20)) output.old }
{
    let blocks = bytes.len() / DATA_IN_BLOCK;
    let mut next = sc;
    for i in 0..blocks {
        let fields = BlockFields {
            di,
            lf: i + 1 == blocks,
            sc: next,
        };
        let from = DATA_IN_BLOCK * i;
        fields.put(
            &bytes[from..from + DATA_IN_BLOCK],
            output,
            INFORMATION_BYTES * i,
        );
        next = (next + 1) % 16;
    }
}

// Fills bytes with a header, the first byte highest.
pub(crate) fn put_header(header: u64, bytes: &mut [u8])
    requires { length bytes.old ≤ 5 }
    ensures { bytes.new ≡ bytes_of (length bytes.old) header }
{
    let whole = header.to_be_bytes();
    bytes.copy_from_slice(&whole[whole.len() - bytes.len()..]);
}

// Fields, and their check behind them.
#[tactic(auto, using(crate::proofs::Laws::check_small))]
pub(crate) fn with_check(fields: u64) -> u64
    requires { fields < 2 ^ 34 }
    ensures { result ≡ with_check 64 fields }
{
    fields * 64 + header::check(fields)
}
