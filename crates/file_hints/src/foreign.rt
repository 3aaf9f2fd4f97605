//! What a file is that is no pattern in a format of the program.

ghost use Rattle.std.specs.Prelude.{◌≡◌};
ghost use Rattle.file_hints.specs.Foreign.{advice_of};

/// What a file is, by its first bytes, that has no pattern in a format of the program or whose lines are wrong.
#[derive(Clone, Copy)]
pub enum Foreign {
    /// It is compressed by gzip.
    Gzip,
    /// It is compressed by bzip2.
    Bzip2,
    /// It is compressed by xz.
    Xz,
    /// It is a zip archive.
    Zip,
    /// It is a tar archive.
    Tar,
    /// It is a picture.
    Image,
    /// It has a NUL byte, and is nothing that is known.
    Binary,
    /// It has no byte.
    Empty,
    /// It is HTML.
    WebPage,
    /// It begins with the byte order mark of UTF-8.
    ByteOrderMark,
    /// It is a pattern in the format Life 1.05.
    Life105,
    /// It is a pattern in the format Life 1.06.
    Life106,
    /// It is a pattern in the format of MCell.
    MCell,
    /// It is a rule table.
    RuleTable,
    /// It is a pattern in plaintext.
    Plaintext,
    /// It is the items of RLE without a header.
    Headerless,
    /// Its lines end in a carriage return alone.
    Returns,
}

impl Foreign {
    /// What the file is, and what to do.
    pub fn advice(self) -> &'static str
        ensures { result.now ≡ advice_of self }
    {
        match self {
            Foreign::Gzip => "This is a gzip file: unpack it first, with gunzip.",
            Foreign::Bzip2 => "This is a bzip2 file: unpack it first, with bunzip2.",
            Foreign::Xz => "This is an xz file: unpack it first, with unxz.",
            Foreign::Zip => "This is a zip file: unpack it first, with unzip.",
            Foreign::Tar => "This is a tar file: unpack it first, with tar -xf.",
            Foreign::Image => "This is an image, not a pattern file.",
            Foreign::Binary => "This isn't a text file, so it is no pattern file.",
            Foreign::Empty => "The file is empty: save it or download it again.",
            Foreign::WebPage => "This is a web page (HTML): download the file that it links to.",
            Foreign::ByteOrderMark => {
                "The file begins with a UTF-8 byte order mark: remove it, or save the file as UTF-8 without one."
            }
            Foreign::Life105 => {
                "This is a Life 1.05 file: open it in Golly, and save it as RLE or as a macrocell file."
            }
            Foreign::Life106 => {
                "This is a Life 1.06 file: open it in Golly, and save it as RLE or as a macrocell file."
            }
            Foreign::MCell => {
                "This is an MCell file: open it in Golly, and save it as RLE or as a macrocell file."
            }
            Foreign::RuleTable => {
                "This is a rule table, not a pattern: name it after the option --table of step."
            }
            Foreign::Plaintext => {
                "This is a plaintext file (.cells): open it in Golly, and save it as RLE or as a macrocell file."
            }
            Foreign::Headerless => {
                "The header is missing: put one before the items, such as x = 0, y = 0, rule = B3/S23."
            }
            Foreign::Returns => {
                "The lines end in a carriage return alone: turn each into a line feed, with tr '\\r' '\\n'."
            }
        }
    }
}
