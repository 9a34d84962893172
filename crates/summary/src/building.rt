// A text is built piece by piece, and delivered whole or not at all. It has room for the longest report, and for the longest row below
// its names, whatever the numbers, so no piece is ever left out.
ghost use Rattle.std.specs.Prelude.{◌≡◌, []};
ghost use Rattle.logs.specs.Decimal.{decimal};
ghost use Rattle.summary.specs.Report.{ended, line, told_text, delivered};
ghost use Rattle.summary.specs.Building.{content, Grows};

use answers::Refusal;
use arrayvec::ArrayVec;

const ROOM: usize = 512;

#[derive(Drop)]
pub struct Text(ArrayVec<u8, ROOM>);

impl Text {
    pub(crate) fn new() -> Self
        ensures { content result ≡ [] }
    {
        Self(ArrayVec::new())
    }

    // A piece that there is no room for is left out.
    pub(crate) fn put(&mut self, piece: &[u8])
        ensures { Grows self.old piece.now self.new }
    {
        let _ = self.0.try_extend_from_slice(piece);
    }

    // A number in decimal, without leading zeros.
    #[tactic(auto, using(crate::proofs::Texts::decimal_std))]
    pub(crate) fn put_number(&mut self, number: u64)
        ensures { Grows self.old (decimal number) self.new }
    {
        self.put(itoa::Buffer::new().format(number).as_bytes());
    }

    // A number and the mark that ends it.
    pub(crate) fn put_field(&mut self, number: u32, mark: u8)
        ensures { Grows self.old (ended (decimal number) mark) self.new }
    {
        self.put_number(u64::from(number));
        self.put(&[mark]);
    }

    // A line of the report: a name, a tab, a number, a line feed.
    #[tactic(auto, using(crate::proofs::Texts::grows_then), unfolding(crate::specs::Report::line))]
    pub(crate) fn put_line(&mut self, name: &[u8], number: u32)
        ensures { Grows self.old (line name.now (decimal number)) self.new }
    {
        self.put(name);
        self.put(b"\t");
        self.put_field(number, b'\n');
    }

    // Copies the text to the start of `out`. Refused, with `out` as before: 10 for an output that is shorter.
    pub(crate) fn deliver(&self, out: &mut [u8]) -> Result<usize, Refusal>
        ensures { told_text result out.new ≡ delivered (content self.now) out.old }
    {
        let text = self.0.as_slice();
        if out.len() < text.len() {
            return Err(Refusal::TooShort);
        }
        out[..text.len()].copy_from_slice(text);
        Ok(text.len())
    }
}
