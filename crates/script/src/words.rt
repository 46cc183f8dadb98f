// Texts cut into lines, and lines into words, which are parted by spaces alone.
ghost use Rattle.std.specs.Prelude.{◌≡◌, ◌==◌, vec_items};
ghost use Rattle.std.specs.List.{before_first, after_first};
ghost use Rattle.script.specs.Answers.{Says};
ghost use Rattle.script.specs.Cuts.{words_left};
ghost use Rattle.script.specs.Numbers.{numbers_of};

use crate::fault::{Stop, Wrong};
use crate::number::{Number, read_number};
use std::alloc::Global;

// The bytes before the first of this value, and those behind it.
fn split_once(text: &[u8], byte: u8) -> (&[u8], &[u8])
    ensures front { result.0.now ≡ before_first (λ b. b == byte) text.now }
    ensures back { result.1.now ≡ after_first (λ b. b == byte) text.now }
{
    let at = text.iter().position(|b| *b == byte).unwrap_or(text.len());
    (&text[..at], text.get(at + 1..).unwrap_or(&[]))
}

// The words of a line that are left.
#[derive(Clone, Copy)]
pub(crate) struct Words<'a> {
    pub(crate) line: &'a [u8],
}

impl<'a> Iterator for Words<'a> {
    ghost use Rattle.std.specs.Iterator.{YieldsFirstRef, item_count};
    ghost use Rattle.script.specs.Cuts.{words_left};

    type Item = &'a [u8];

    ghost next_gives = { YieldsFirstRef words_left };

    ghost remaining = { item_count words_left };

    fn next(&mut self) -> Option<&'a [u8]> {
        let start = self.line.iter().position(|b| *b != b' ')?;
        let (word, rest) = split_once(&self.line[start..], b' ');
        self.line = rest;
        Some(word)
    }
}

// The lines of a text that are left, each without its line feed.
#[derive(Clone, Copy)]
pub(crate) struct Lines<'a> {
    pub(crate) text: &'a [u8],
}

impl<'a> Iterator for Lines<'a> {
    ghost use Rattle.std.specs.Iterator.{YieldsFirstRef, item_count};
    ghost use Rattle.script.specs.Cuts.{lines_left};

    type Item = &'a [u8];

    ghost next_gives = { YieldsFirstRef lines_left };

    ghost remaining = { item_count lines_left };

    fn next(&mut self) -> Option<&'a [u8]> {
        if self.text.is_empty() {
            return None;
        }
        let (line, rest) = split_once(self.text, b'\n');
        self.text = rest;
        Some(line)
    }
}

// The words that are left as numbers.
pub(crate) fn read_numbers(heap: Global, words: Words<'_>) -> Result<Vec<Number>, Stop>
    ensures { Says vec_items result (numbers_of (words_left words.entry)) }
{
    let mut numbers = Vec::new(heap);
    for word in words {
        let number = read_number(word).ok_or(Wrong::NoNumber)?;
        numbers.push(number)?;
    }
    Ok(numbers)
}
