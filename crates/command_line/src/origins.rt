//! What a word of the command line names where a file is expected.

ghost use Rattle.command_line.specs.Words.{IsOriginOf};

/// What a word names.
#[derive(Clone, Copy)]
pub enum Origin<'a> {
    /// Standard input.
    Standard,
    /// The file of this name.
    File(&'a str),
}

/// What a word names: `-` is standard input, and each other word a file.
pub fn origin_of(word: &str) -> Origin<'_>
    ensures { IsOriginOf word.now result }
{
    if word == "-" {
        Origin::Standard
    } else {
        Origin::File(word)
    }
}
