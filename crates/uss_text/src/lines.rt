ghost use Rattle.std.specs.Prelude.{◌≡◌, [], ◌∷◌, MatchOption};
ghost use Rattle.uss_text.specs.Lines.{lines_of, IsFree, IsCut};

use memchr::memchr;
use std::marker::Model;

/// The most bytes of a script: 64 MiB. Its definition is `most_bytes` of `specs/Lines.antt`.
pub const MOST_BYTES: usize = 67_108_864;

/// The bytes before the first separator, and those after it, where there is one.
pub fn cut(bytes: &[u8], separator: u8) -> Option<(&[u8], &[u8])>
    ensures { MatchOption result (IsFree separator bytes.now) (λ parts. IsCut separator bytes.now parts.0.now parts.1.now) }
{
    match memchr(separator, bytes) {
        Some(place) => Some((&bytes[..place], &bytes[place + 1..])),
        None => None,
    }
}

/// The lines of a text that are left to be read, seen as their list.
#[derive(Drop)]
pub struct Lines<'a> {
    rest: &'a [u8],
}

impl<'a> Model for Lines<'a> {
    ghost use Rattle.std.specs.Prelude.{List, ℕ};
    ghost use Rattle.uss_text.specs.Lines.{lines_of};

    ghost Value = { List (List ℕ) };

    ghost view = { λ l. lines_of l.rest.now };
}

impl<'a> Lines<'a> {
    /// All lines of the text.
    pub fn of(text: &'a [u8]) -> Lines<'a>
        ensures { result ≡ lines_of text.now }
    {
        Lines { rest: text }
    }

    /// The next line, without its LF.
    pub fn next_line(&mut self) -> Option<&'a [u8]>
        ensures { MatchOption result ((self.old ≡ []) × (self.new ≡ [])) (λ line. self.old ≡ line.now ∷ self.new) }
    {
        let rest = self.rest;
        if rest.is_empty() {
            return None;
        }
        match cut(rest, b'\n') {
            Some((line, behind)) => {
                self.rest = behind;
                Some(line)
            }
            None => {
                self.rest = &[];
                Some(rest)
            }
        }
    }
}
