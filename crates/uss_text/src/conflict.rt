ghost use Rattle.std.specs.Prelude.{◌≡◌, ◌<◌, ◌^◌, length, OnOk, IfErr};
ghost use Rattle.uss_text.specs.Reading.{Gives, LineGives, ScriptGives};
ghost use Rattle.uss_text.specs.Conflict as spec;

use crate::lines::{Lines, MOST_BYTES};
use crate::refusal::{ScriptRefusal, WordRefusal};
use crate::volumes::volume;
use crate::words::Words;
use std::alloc::Global;
use uss_intent::Volumes;
use uss_vol4::Volume4;

/// The list that a line adds to.
#[derive(Clone, Copy)]
enum Side {
    A,
    B,
}

/// The two lists of volumes that `uss conflict` compares, each in the order of its lines.
#[derive(Drop)]
pub struct ConflictScript {
    pub a: Volumes,
    pub b: Volumes,
}

impl ConflictScript {
    /// Adds a volume to its list.
    fn add(&mut self, placed: Placed) -> Result<(), ScriptRefusal>
        ensures ok { OnOk result (spec.lists self.new.a self.new.b ≡ spec.with_last (spec.lists self.old.a self.old.b) placed) }
        ensures memory { IfErr result (λ e. e ≡ ScriptRefusal.Memory) }
    {
        match placed.side {
            Side::A => self.a.push(placed.volume)?,
            Side::B => self.b.push(placed.volume)?,
        }
        Ok(())
    }
}

/// The list that the line adds to.
#[tactic(auto, unfolding(crate::specs::Conflict::side_at))]
fn read_side(words: &mut Words) -> Result<Side, WordRefusal>
    ensures { Gives result words.new (spec.side_at words.old) }
{
    let word = words.word()?;
    if word == b"a".as_slice() {
        return Ok(Side::A);
    }
    if word == b"b".as_slice() {
        return Ok(Side::B);
    }
    Err(WordRefusal::BadLine)
}

/// A volume and the list that it is added to.
#[derive(Drop)]
struct Placed {
    side: Side,
    volume: Volume4,
}

#[tactic(auto, unfolding(crate::specs::Conflict::conflict_line))]
fn read_line(alloc: Global, line: &[u8]) -> Result<Placed, WordRefusal>
    ensures { LineGives result (spec.conflict_line line.now) }
{
    let mut words = Words::of(line);
    let side = read_side(&mut words)?;
    let volume = volume(alloc, &mut words)?;
    words.end()?;
    Ok(Placed { side, volume })
}

/// Reads the script of `uss conflict`: each line is `a VOLUME` or `b VOLUME`. A text of more than 64 MiB is
/// refused first, and else the first refused line decides, and in it the first refused word.
pub fn read_conflict(alloc: Global, text: &[u8]) -> Result<ConflictScript, ScriptRefusal>
    ensures { ScriptGives (λ s. spec.lists s.a s.b) result (spec.conflict_script text.now) }
{
    if text.len() > MOST_BYTES {
        return Err(ScriptRefusal::TextTooLarge);
    }
    read_lines(alloc, Lines::of(text))
}

fn read_lines(alloc: Global, mut lines: Lines) -> Result<ConflictScript, ScriptRefusal>
    requires { length lines < 2 ^ 64 }
    ensures { ScriptGives (λ s. spec.lists s.a s.b) result (spec.lists_behind 0 lines.entry) }
{
    let mut script = ConflictScript {
        a: Volumes::new(alloc),
        b: Volumes::new(alloc),
    };
    let mut number = 0u64;
    while let Some(line) = lines.next_line() {
        number += 1;
        match read_line(alloc, line) {
            Ok(placed) => script.add(placed)?,
            Err(refusal) => return Err(refusal.at_line(number)),
        }
    }
    Ok(script)
}
