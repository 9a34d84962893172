// The rule of a reader that is handed in: whether it takes a piece or the end.
ghost use Rattle.std.specs.Prelude.{◌≡◌, ◌≤◌};
ghost use Rattle.logs.specs.Reader.{longest_line, is_held, is_reader};

use crate::{LONGEST_LINE, Phase, Reader};

impl Reader {
    #[tactic(auto, unfolding(crate::specs::Reader::is_reader))]
    pub(crate) fn is_ruled(&self) -> bool
        ensures { result ≡ is_reader self.now }
    {
        let has_room = match self.phase {
            Phase::Open => self.length <= LONGEST_LINE,
            Phase::Refused => self.length == 0,
            Phase::Ended => false,
        };
        has_room && self.is_held() && self.counts.is_before()
    }

    // Whether no line feed is among the bytes held, and zeros follow them.
    fn is_held(&self) -> bool
        requires { self.now.length ≤ longest_line }
        ensures { result ≡ is_held self.now.held self.now.length }
    {
        let (line, rest) = self.held.split_at(self.length);
        !line.contains(&b'\n') && text::same(rest, &[0; LONGEST_LINE][self.length..])
    }
}
