// The words of a line, from left to right: its longest runs of bytes that are no blanks.

ghost use Rattle.std.specs.Prelude.{◌≡◌, ◌+◌, ◌^◌, ◌<◌, length};

use crate::{Class, forward};

// The words that are left, and the position of the first byte that is.
#[derive(Drop)]
pub struct Words<'a> {
    rest: &'a [u8],
    at: usize,
    ghost fits: { at + length rest.now < 2 ^ 64 },
}

impl<'a> Words<'a> {
    ghost use Rattle.read_lines.specs.Words.{words};
    ghost use Rattle.read_lines.specs.Left.{words_left};

    // Those of a line whose first byte stands at a position.
    pub fn of(line: &'a [u8], at: usize) -> Words<'a>
        requires { at + length line.now < 2 ^ 64 }
        ensures { words_left result ≡ words at line.now }
    {
        Words { rest: line, at }
    }
}

impl<'a> Iterator for Words<'a> {
    ghost use Rattle.std.specs.Iterator.{YieldsFirstBy, item_count};
    ghost use Rattle.read_lines.specs.Left.{word_at, words_left};

    // The position of a word's first byte, and its bytes.
    type Item = (usize, &'a [u8]);

    ghost next_gives = { YieldsFirstBy word_at words_left };

    ghost remaining = { item_count words_left };

    fn next(&mut self) -> Option<(usize, &'a [u8])> {
        let line = self.rest;
        let start = forward(line, 0, line.len(), Class::NonBlank);
        if start == line.len() {
            return None;
        }
        let end = forward(line, start, line.len(), Class::Blank);
        let at = self.at + start;
        self.at += end;
        self.rest = &line[end..];
        Some((at, &line[start..end]))
    }
}
