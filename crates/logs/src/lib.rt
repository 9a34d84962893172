// The reader of a reception log (document 01, "The log and its report"; document 02, ticket 4): a machine over bytes with its state by
// value, for a whole log at once or for one that comes in pieces.
#![tactic(auto)]

mod count;
mod line;
mod machine;
mod rule;
mod slot;

ghost use Rattle.std.specs.Prelude.{◌≡◌, eqb};
ghost use Rattle.logs.specs.Reader.{told_log, told_fed, fresh_reader, between, fine, no_reader, read_of, fed_of, end_of};

use answers::Refusal;
pub use count::is_counts;
use machine::Machine;

// A log has at most so many slots.
const GREATEST_SLOT: u32 = 999999;

// The channel, 0 before the first line, and the counts of its slots' outcomes. A plain number, as any counts may be handed in, those of
// channel 0 and 255 too, and `is_counts` answers for each.
#[derive(Clone, Copy, Default)]
pub struct Counts {
    pub channel: u8,
    pub slots: u32,
    pub read: u32,
    pub clean: u32,
    pub bits: u32,
    pub noword: u32,
    pub check: u32,
    pub missing: u32,
}

// What a whole log gives: the number of the refused line, 0 where there is none, and the counts of the lines before it. They stand beside
// the answer, since a refusal has counts too, and since `summary::report_log` takes any line with any answer.
#[derive(Clone, Copy)]
pub struct LogRead {
    pub answer: Result<(), Refusal>,
    pub line: u32,
    pub counts: Counts,
}

// The longest line, without its line feed.
pub const LONGEST_LINE: usize = 63;

#[derive(Clone, Copy, PartialEq, Eq)]
pub enum Phase {
    Open,
    Refused,
    Ended,
}

// The state between two bytes. The first `length` bytes held are the line so far, and the others are 0: an array with its length, since the
// state goes by value, in fixed memory, and `feed` answers for any that is handed in.
#[derive(Clone, Copy)]
pub struct Reader {
    pub phase: Phase,
    pub counts: Counts,
    pub held: [u8; LONGEST_LINE],
    pub length: usize,
}

// What a piece of a log gives, or its end: the number of the refused line or 0, and the next state, which has the counts. They stand beside
// the answer, since a refusal leaves a state too.
#[derive(Clone, Copy)]
pub struct Fed {
    pub answer: Result<(), Refusal>,
    pub line: u32,
    pub reader: Reader,
}

// Reads a whole log. Refused: 12 at the first bad line, with its number and the counts before it.
#[tactic(auto, unfolding(crate::specs::Reader::read_of))]
pub fn read(log: &[u8]) -> LogRead
    ensures { told_log result ≡ read_of log.now }
{
    let mut machine = Machine { reader: start() };
    machine.take(log);
    let last = machine.after_end();
    LogRead {
        answer: last.answer,
        line: last.line,
        counts: last.reader.counts,
    }
}

// A reader before the first byte.
pub fn start() -> Reader
    ensures { result ≡ fresh_reader }
{
    Reader::between_lines(Phase::Open, Counts::tuned_to(0))
}

// Takes a piece of a log, cut anywhere. Refused: 11 for a reader that has ended or is outside its rule, which stays as it is; 12 at the
// first bad line, with its number and the counts before it, and from then on for every piece and the end.
#[tactic(auto, unfolding(crate::specs::Reader::fed_of))]
pub fn feed(reader: Reader, piece: &[u8]) -> Fed
    ensures { told_fed result ≡ fed_of reader piece.now }
{
    let Some(mut machine) = Machine::of(reader) else {
        return Fed::outside_rule(reader);
    };
    machine.take(piece);
    machine.after_piece()
}

// Takes the end of a log. Refused: 11 for a reader that has ended or is outside its rule, which stays as it is; 12 where a line was
// bad, the first line is missing or the last has no line feed, with its number and the counts before it.
#[tactic(auto, unfolding(crate::specs::Reader::end_of))]
pub fn end(reader: Reader) -> Fed
    ensures { told_fed result ≡ end_of reader }
{
    match Machine::of(reader) {
        Some(machine) => machine.after_end(),
        None => Fed::outside_rule(reader),
    }
}

impl Reader {
    // Between two lines: nothing is held.
    fn between_lines(phase: Phase, counts: Counts) -> Self
        ensures { result ≡ between phase counts }
    {
        Reader {
            phase,
            counts,
            held: [0; LONGEST_LINE],
            length: 0,
        }
    }

    // Whether the next byte is the first of a line.
    fn holds_nothing(&self) -> bool
        ensures { result ≡ eqb self.now.length 0 }
    {
        self.length == 0
    }
}

impl Fed {
    fn accepted(reader: Reader) -> Self
        ensures { told_fed result ≡ fine reader }
    {
        Fed {
            answer: Ok(()),
            line: 0,
            reader,
        }
    }

    fn outside_rule(reader: Reader) -> Self
        ensures { told_fed result ≡ no_reader reader }
    {
        Fed {
            answer: Err(Refusal::OutsideRule),
            line: 0,
            reader,
        }
    }
}
