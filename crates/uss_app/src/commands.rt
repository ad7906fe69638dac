ghost use Rattle.std.specs.Prelude.{◌≡◌, map, string_bytes};
ghost use Rattle.uss_app.specs.Words as spec;

/// A command of the program.
#[derive(Clone, Copy, Debug, PartialEq, Eq)]
pub enum Command {
    /// Compares two lists of volumes.
    Conflict,
    /// Carries out calls of the discovery service.
    Discover,
}

fn named(word: &str) -> Option<Command>
    ensures { result ≡ spec.named word.now }
{
    if word == "conflict" {
        return Some(Command::Conflict);
    }
    if word == "discover" {
        return Some(Command::Discover);
    }
    None
}

/// The command that the words name: one word does.
pub fn command_of(words: &[String]) -> Option<Command>
    ensures { result ≡ spec.command_of (map string_bytes words.now) }
{
    match words {
        [word] => named(word.as_str()),
        _ => None,
    }
}
