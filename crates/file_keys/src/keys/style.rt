//! How the command `keys` writes of its files.

ghost use Rattle.std.specs.Prelude.{◌≡◌};
ghost use Rattle.file_keys.specs.Words.{style_by};

/// How a run writes of its files.
#[derive(Clone, Copy)]
pub enum Style {
    /// A line of each key, which ends in LF. Standard error gets a line of each file without a key.
    Lines,
    /// The same, but a line of a key ends in NUL, and its name is written as it is.
    Zero,
    /// An object of JSON for each file, one a line. Standard error gets none of that.
    Json,
}

impl Style {
    /// The style of a run with these options.
    pub(crate) fn by(json: bool, zero: bool) -> Style
        ensures { result ≡ style_by json zero }
    {
        if json {
            Style::Json
        } else if zero {
            Style::Zero
        } else {
            Style::Lines
        }
    }
}
