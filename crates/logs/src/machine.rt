// The machine over bytes. A line is recognised in two ways. Its bytes are held, and judged at its line feed (line.rt): so a line that is
// cut, the first line, every bad one and one near the piece's end. For speed a good slot's line that lies whole in the piece,
// where nine bytes or more are left of it, is read forward where it stands (slot.rt). Either way leads to the reader that `run` leads to.
ghost use Rattle.std.specs.Prelude.{◌≡◌, true, false, ◌-◌, ◌≤◌, length, MatchOption};
ghost use Rattle.logs.specs.declared.Phase.TheVariants.{Refused};
ghost use Rattle.logs.specs.Reader.{between, bad_line, after_piece, after_end, is_reader, told_fed, run};

use crate::{Counts, Fed, LONGEST_LINE, Phase, Reader, line, slot};
use answers::Refusal;

// A reader that keeps its rule.
#[derive(Clone, Copy)]
pub(crate) struct Machine {
    pub reader: Reader,
    ghost ruled: { is_reader reader ≡ true },
}

impl Machine {
    // None for a reader outside its rule.
    pub(crate) fn of(reader: Reader) -> Option<Self>
        ensures { MatchOption result (is_reader reader ≡ false) (λ m. m.reader ≡ reader) }
    {
        if reader.is_ruled() {
            Some(Machine { reader })
        } else {
            None
        }
    }

    // Takes some bytes more.
    pub(crate) fn take(&mut self, piece: &[u8])
        ensures { self.new.reader ≡ run self.old.reader piece.now }
    {
        let mut rest = piece;
        while !rest.is_empty() {
            rest = self.take_slots(rest);
            rest = self.take_line(rest);
        }
    }

    // Takes the good lines of slots that stand whole at the piece's start, and answers what is left of it.
    fn take_slots<'a>(&mut self, piece: &'a [u8]) -> &'a [u8]
        ensures same { run self.old.reader piece.now ≡ run self.new.reader result.now }
        ensures shorter { length result.now ≤ length piece.now }
    {
        if self.reader.phase != Phase::Open || !self.reader.holds_nothing() {
            return piece;
        }
        let mut counts = self.reader.counts;
        let mut rest = piece;
        while let Some((outcome, behind)) = slot::next_slot(counts, rest) {
            counts = counts.with_slot(outcome);
            rest = behind;
        }
        self.reader.counts = counts;
        rest
    }

    // Takes the bytes of a line up to the one at which it is judged, or all that there are, and answers what is left. After a refusal the
    // rest of the piece plays no part.
    fn take_line<'a>(&mut self, piece: &'a [u8]) -> &'a [u8]
        ensures same { run self.old.reader piece.now ≡ run self.new.reader result.now }
        ensures shorter { length result.now ≤ length piece.now - 1 }
    {
        if self.reader.phase != Phase::Open {
            return &[];
        }
        let start = self.reader.length;
        let room = LONGEST_LINE - start;
        // A longer line is refused wherever it ends, so its end is not looked for.
        let near = &piece[..piece.len().min(room + 1)];
        let (line, rest) = piece.split_at(text::find(near, b'\n'));
        if room < line.len() {
            self.reader = Reader::between_lines(Phase::Refused, self.reader.counts);
            return &[];
        }
        let end = start + line.len();
        self.reader.held[start..end].copy_from_slice(line);
        self.reader.length = end;
        let Some((_, behind)) = rest.split_first() else {
            return rest;
        };
        self.reader = match line::judge(self.reader.counts, &self.reader.held[..end]) {
            Some(counts) => Reader::between_lines(Phase::Open, counts),
            None => Reader::between_lines(Phase::Refused, self.reader.counts),
        };
        behind
    }

    // What a piece gives, where this reader is the one after it.
    pub(crate) fn after_piece(self) -> Fed
        ensures { told_fed result ≡ after_piece self.reader }
    {
        if self.reader.phase == Phase::Open {
            Fed::accepted(self.reader)
        } else {
            self.refused()
        }
    }

    // What the end gives.
    pub(crate) fn after_end(self) -> Fed
        ensures { told_fed result ≡ after_end self.reader }
    {
        if self.reader.phase != Phase::Open
            || self.reader.counts.channel == 0
            || self.reader.length != 0
        {
            return self.refused();
        }
        Fed::accepted(Reader::between_lines(Phase::Ended, self.reader.counts))
    }

    // Refuses the line after the counts.
    fn refused(self) -> Fed
        ensures { told_fed result ≡ bad_line (between Refused self.reader.counts) }
    {
        Fed {
            answer: Err(Refusal::BadLine),
            line: self.reader.counts.next_line(),
            reader: Reader::between_lines(Phase::Refused, self.reader.counts),
        }
    }
}
