//! What is said of a file that is accepted, and probably meant otherwise than it is read.

ghost use Rattle.std.specs.Prelude.{◌≡◌};
ghost use Rattle.file_hints.specs.Words.{warning_sentence};

/// Why a file is probably meant otherwise than it is read.
#[derive(Clone, Copy)]
pub enum Warning {
    /// It is macrocell, and its first line has a carriage return inside it.
    Return,
    /// It is macrocell, and has no line of squares.
    NoSquares,
    /// It is macrocell, and a line before its squares would be a rule or a generation if it had a space.
    Comment,
    /// It is RLE, and its header gives a size above 0, but none of its cells is in another state than 0.
    NoCells,
    /// It is RLE with live cells and without a `!`, and has fewer rows than the height in its header.
    Cut,
    /// It is RLE, and a line after its `!`, or the rest of the line of the `!`, begins as a header does.
    Joined,
}

impl Warning {
    /// The warning, as a sentence without its full stop.
    pub fn sentence(self) -> &'static str
        ensures { result.now ≡ warning_sentence self }
    {
        match self {
            Warning::Return => concat!(
                "line 1 has a carriage return inside it: the file seems to have lost its line ends, so that most of it is ",
                "read as a comment",
            ),
            Warning::NoSquares => concat!(
                "the file has no line of squares, so it is the blank pattern; a macrocell file that lost its line ends ",
                "looks like this",
            ),
            Warning::Comment => concat!(
                "a line such as `#RB36/S23` or `#G7`, without a space, is a comment here, and a rule or a generation in ",
                "Golly",
            ),
            Warning::NoCells => concat!(
                "the header gives the pattern a size, but no cell is alive, so it is the blank pattern; a file that lost its ",
                "rows looks like this",
            ),
            Warning::Cut => concat!(
                "the file has no `!`, and fewer rows than its header says; a file that was cut off before its end looks ",
                "like this",
            ),
            Warning::Joined => concat!(
                "another header follows the `!`, and all that follows the `!` is ignored; a file that several patterns were ",
                "joined into looks like this",
            ),
        }
    }
}
