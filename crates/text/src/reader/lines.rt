// How a reader hands out a line.
ghost use Rattle.std.specs.Prelude.{◌≡◌, MatchOption};
ghost use Rattle.text.specs.Lines.{newline, Free};
ghost use Rattle.text.specs.Reading.{rest, Handed};

use super::{Line, Reader};
use crate::separators::{NEWLINE, cut};

impl<'a> Reader<'a> {
    // The next line, without its newline. Bytes that no newline ends are no line.
    pub fn next_line(&mut self) -> Option<Line<'a>>
        ensures { MatchOption result (Free newline (rest self.old) × (self.new ≡ self.old)) (λ line. Handed self.old line self.new) }
    {
        let (text, _) = cut(self.rest(), NEWLINE)?;
        self.at += text.len() + 1;
        self.number += 1;
        Some(Line {
            text,
            number: self.number,
        })
    }
}
