// The items of a line, with one space between two.
ghost use Rattle.std.specs.Prelude.{◌≡◌, ℕ, List, Option, length};
ghost use Rattle.std.specs.Iterator.{YieldsFirstRef, item_count};
ghost use Rattle.std.specs.Option.{option_map};
ghost use Rattle.text.specs.Left.{left};
ghost use Rattle.text.specs.Lines.{space, parts};

use crate::separators::{SPACE, cut};
use std::marker::Model;

// The items that were not handed out yet.
// Not the library's `Split`, whose type has that of its closure in it: a field cannot name that.
#[derive(Drop)]
pub struct Items<'a> {
    rest: Option<&'a [u8]>,
}

impl<'a> Model for Items<'a> {
    ghost Value = { Option (List ℕ) };

    ghost view = { λ i. option_map (λ line. line.now) i.rest };
}

impl<'a> Items<'a> {
    pub fn new(line: &'a [u8]) -> Items<'a>
        ensures { left result ≡ parts space line.now }
    {
        Items { rest: Some(line) }
    }
}

impl<'a> Iterator for Items<'a> {
    type Item = &'a [u8];

    ghost next_gives = { YieldsFirstRef left };

    ghost remaining = { item_count left };

    fn next(&mut self) -> Option<&'a [u8]> {
        let line = self.rest?;
        match cut(line, SPACE) {
            Some((item, rest)) => {
                self.rest = Some(rest);
                Some(item)
            }
            None => {
                self.rest = None;
                Some(line)
            }
        }
    }
}

// How many items a line has.
pub fn count(line: &[u8]) -> usize
    ensures { result ≡ length (parts space line.now) }
{
    // A `filter` that counts took 1.6 times as long on a long line.
    let mut count = 1;
    for b in line {
        if *b == SPACE {
            count += 1;
        }
    }
    count
}
