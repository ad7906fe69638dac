ghost use Rattle.std.specs.Prelude.{◌≡◌, [], ◌∷◌, MatchOption};
ghost use Rattle.uss_text.specs.Lines.{words_of};
ghost use Rattle.uss_text.specs.Reading.{Gives, GivesBy, read, word_at, integer_at, count_at, end_at};

use crate::lines::cut;
use crate::numbers::{integer, natural};
use crate::refusal::WordRefusal;
use std::marker::Model;

/// The words of a line that are left to be read, seen as their list.
#[derive(Drop)]
pub struct Words<'a> {
    rest: Option<&'a [u8]>,
}

impl<'a> Model for Words<'a> {
    ghost use Rattle.std.specs.Prelude.{List, ℕ};
    ghost use Rattle.uss_text.specs.Lines.{words_left};

    ghost Value = { List (List ℕ) };

    ghost view = { λ w. words_left w.rest };
}

impl<'a> Words<'a> {
    /// All words of the line.
    pub fn of(line: &'a [u8]) -> Words<'a>
        ensures { result ≡ words_of line.now }
    {
        Words { rest: Some(line) }
    }

    /// The next word, which may be empty.
    fn next_word(&mut self) -> Option<&'a [u8]>
        ensures { MatchOption result ((self.old ≡ []) × (self.new ≡ [])) (λ word. self.old ≡ word.now ∷ self.new) }
    {
        let Some(rest) = self.rest else {
            return None;
        };
        match cut(rest, b' ') {
            Some((word, behind)) => {
                self.rest = Some(behind);
                Some(word)
            }
            None => {
                self.rest = None;
                Some(rest)
            }
        }
    }

    /// The next word. An empty word and the end of the line are refused.
    #[tactic(auto, unfolding(crate::specs::Reading::word_at))]
    pub fn word(&mut self) -> Result<&'a [u8], WordRefusal>
        ensures { GivesBy (λ word. word.now) result self.new (word_at self.old) }
    {
        match self.next_word() {
            Some(word) if !word.is_empty() => Ok(word),
            _ => Err(WordRefusal::BadLine),
        }
    }

    /// The next word as a whole number of 64 bits, signed.
    #[tactic(auto, unfolding(crate::specs::Reading::integer_at))]
    pub fn integer(&mut self) -> Result<i64, WordRefusal>
        ensures { Gives result self.new (integer_at self.old) }
    {
        let word = self.word()?;
        integer(word).ok_or(WordRefusal::BadNumber)
    }

    /// The next word as a number from 0 to 4,294,967,295.
    #[tactic(auto, unfolding(crate::specs::Reading::count_at))]
    pub fn count(&mut self) -> Result<u32, WordRefusal>
        ensures { Gives result self.new (count_at self.old) }
    {
        let word = self.word()?;
        match natural(word) {
            Some(count) if count <= u64::from(u32::MAX) => Ok(count as u32),
            _ => Err(WordRefusal::BadNumber),
        }
    }

    /// The end of the line: a word too many is refused.
    #[tactic(auto, unfolding(crate::specs::Reading::end_at))]
    pub fn end(&mut self) -> Result<(), WordRefusal>
        ensures { result ≡ end_at self.old }
    {
        match self.next_word() {
            None => Ok(()),
            Some(_) => Err(WordRefusal::BadLine),
        }
    }
}
