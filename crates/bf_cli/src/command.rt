//! The words of the command line.
ghost use Rattle.std.specs.Prelude.{◌≡◌, ◌↔◌, ◌∷◌, [], IsTrue, MatchOption};
ghost use Rattle.bf_cli.specs.Commands.{texts, IsCommand, IsUsage};

/// What the words ask for.
#[derive(Clone, Copy, Debug, PartialEq, Eq)]
pub enum Command {
    /// The map of a case by one process alone.
    One,
    /// The same by ranks, one after another.
    Drive,
}

// Whether there is this one word alone.
fn is_word(words: &[&str], word: &str) -> bool
    ensures { IsTrue result ↔ (texts words.now ≡ word.now ∷ []) }
{
    words.len() == 1 && words[0] == word
}

/// The command that the words ask for, if there is one.
pub fn command_of(words: &[&str]) -> Option<Command>
    ensures { MatchOption result (IsUsage words.now) (IsCommand words.now) }
{
    if is_word(words, "one") {
        return Some(Command::One);
    }
    if is_word(words, "drive") {
        return Some(Command::Drive);
    }
    None
}
