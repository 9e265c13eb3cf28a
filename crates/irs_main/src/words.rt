//! The words of a command line. The first word is the command.
ghost use Rattle.irs_main.specs.WrongWords.{command as command_of, word_at as word_at_of};
ghost use Rattle.irs_cli.specs.Commands.{word_texts};
ghost use Rattle.std.specs.Prelude.{◌≡◌};

/// The word at a place, where the command has place 0; empty past the last one.
pub(crate) fn word_at(words: &[String], place: usize) -> &[u8]
    ensures { result.now ≡ word_at_of (word_texts words.now) place }
{
    match words.get(place) {
        None => &[],
        Some(word) => word.as_bytes(),
    }
}

/// The command.
pub(crate) fn command(words: &[String]) -> &[u8]
    ensures { result.now ≡ command_of (word_texts words.now) }
{
    word_at(words, 0)
}
