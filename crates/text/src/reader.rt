// A text that is read line by line.
ghost use Rattle.std.specs.Prelude.{◌≡◌, ◌≤◌, length};

mod lines;

use std::marker::Model;

#[derive(Clone, Copy)]
pub struct Line<'a> {
    pub text: &'a [u8],
    // from 1
    pub number: usize,
}

// A rule of the project: a reader holds the file's bytes and a place in them.
#[derive(Drop)]
pub struct Reader<'a> {
    bytes: &'a [u8],
    at: usize,
    number: usize,
    // Every line handed out lies before the place, with a byte of its own.
    ghost within: { at ≤ length bytes.now },
    ghost few: { number ≤ at },
}

impl<'a> Model for Reader<'a> {
    ghost use Rattle.text.specs.Reading.{Reading};

    ghost Value = { Reading };

    ghost view = { λ r. record { bytes = r.bytes.now; at = r.at; number = r.number; within = r.within; few = r.few } };
}

impl<'a> Reader<'a> {
    ghost use Rattle.std.specs.Prelude.{◌≡◌, [], Decides};
    ghost use Rattle.text.specs.Reading.{rest};

    pub fn new(bytes: &'a [u8]) -> Reader<'a>
        ensures rest { rest result ≡ bytes.now }
        ensures number { result.number ≡ 0 }
    {
        Reader {
            bytes,
            at: 0,
            number: 0,
        }
    }

    // How many lines were handed out.
    pub fn number(&self) -> usize
        ensures { result ≡ self.now.number }
    {
        self.number
    }

    // What is left to read.
    fn rest(&self) -> &'a [u8]
        ensures { result.now ≡ rest self.now }
    {
        &self.bytes[self.at..]
    }

    // Whether nothing is left to read.
    pub fn at_end(&self) -> bool
        ensures { Decides result (rest self.now ≡ []) }
    {
        self.rest().is_empty()
    }
}
