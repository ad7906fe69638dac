ghost use Rattle.std.specs.Prelude.{◌<◌, ◌^◌, length};
ghost use Rattle.uss_text.specs.Reading.{LineGives, ScriptGives, each_behind};
ghost use Rattle.uss_text.specs.Discover as spec;

use crate::asks::ask;
use crate::intents::name;
use crate::lines::{Lines, MOST_BYTES};
use crate::refusal::{ScriptRefusal, WordRefusal};
use crate::words::Words;
use std::alloc::Global;
use uss_intent::{DssAsk, Name, Sequence};

/// A line of the script of `uss discover`: a client, and the call that it makes.
#[derive(Drop)]
pub struct DiscoverLine {
    /// The client's name.
    pub client: Name,
    pub ask: DssAsk,
}

/// The calls of a script, in the order of its lines.
pub type DiscoverLines = Sequence<DiscoverLine>;

#[tactic(auto, unfolding(crate::specs::Discover::discover_line))]
fn read_line(alloc: Global, line: &[u8]) -> Result<DiscoverLine, WordRefusal>
    ensures { LineGives result (spec.discover_line line.now) }
{
    let mut words = Words::of(line);
    let client = name(alloc, &mut words)?;
    let ask = ask(alloc, &mut words)?;
    words.end()?;
    Ok(DiscoverLine { client, ask })
}

/// Reads the script of `uss discover`: each line is a client's name and its call of the discovery service. A text
/// of more than 64 MiB is refused first, and else the first refused line decides, and in it the first refused word.
/// A count of OVNs or volumes claims no memory before they stand there.
pub fn read_discover(alloc: Global, text: &[u8]) -> Result<DiscoverLines, ScriptRefusal>
    ensures { ScriptGives (λ lines. lines) result (spec.discover_script text.now) }
{
    if text.len() > MOST_BYTES {
        return Err(ScriptRefusal::TextTooLarge);
    }
    read_lines(alloc, Lines::of(text))
}

fn read_lines(alloc: Global, mut lines: Lines) -> Result<DiscoverLines, ScriptRefusal>
    requires { length lines < 2 ^ 64 }
    ensures { ScriptGives (λ read. read) result (each_behind spec.discover_line 0 lines.entry) }
{
    let mut script = DiscoverLines::new(alloc);
    let mut number = 0u64;
    while let Some(line) = lines.next_line() {
        number += 1;
        match read_line(alloc, line) {
            Ok(read) => script.push(read)?,
            Err(refusal) => return Err(refusal.at_line(number)),
        }
    }
    Ok(script)
}
