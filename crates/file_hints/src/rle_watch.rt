//! What is known of an RLE file by its bytes so far, to warn of one that was probably damaged.

ghost use Rattle.std.specs.Prelude.{◌≡◌, ◌≤◌, ◌++◌, ◌∷◌, ◌&&◌, ◌||◌, ℕ, List, [], false, length, not};
ghost use Rattle.file_hints.specs.Words.{byte, count_after, has_byte, is_ascii_digit, is_live_byte, is_size_digit, is_state_byte, lines_of_items, list_any, number_from, warning_in_ending, warning_in_header, warning_in_items, warning_in_rle, with_digit, without_last};

use crate::places::place_of;
use crate::warnings::Warning;
use life_base::is_whitespace;

/// Where in the header the bytes so far end, and what it says.
#[derive(Clone, Copy)]
pub(crate) enum Header {
    /// Before its `y`.
    Width { is_sized: bool },
    /// After its `y`, and before its rule.
    Height { is_sized: bool, height: u64 },
    /// In its rule.
    Rule { is_sized: bool, height: u64 },
}

/// What is known by the items so far.
#[derive(Clone, Copy)]
pub(crate) struct Items {
    /// Whether the header gives a size above 0.
    is_sized: bool,
    /// Whether a live cell came.
    has_cell: bool,
    /// How many rows of the height in the header have not ended.
    missing: u64,
    /// The count that the next item has, as far as it came, or 0.
    count: u64,
    /// Whether the row that has not ended has a state, live or not.
    is_begun: bool,
}

/// Where after the `!` the bytes so far end.
#[derive(Clone, Copy)]
pub(crate) enum Ending {
    /// After whitespace alone since the `!`, or since the line began.
    Space,
    /// After that and an `x`, and whitespace or nothing.
    Width,
    /// In a line that is no header.
    Rest,
    /// After a line that begins as a header does, or in it.
    Header,
}

/// In what part of the file the bytes so far end.
#[derive(Clone, Copy)]
pub(crate) enum Part {
    /// At the beginning of a line before the header.
    LineStart,
    /// In a line before the header.
    Comment,
    /// In the header.
    Header(Header),
    /// At the beginning of a line after the header.
    ItemsStart(Items),
    /// In a comment after the header.
    ItemsComment(Items),
    /// In a line of items.
    Items(Items),
    /// After the `!`.
    After(Ending),
    /// After the `!` of items without a live cell, where the header gives a size.
    NoCells,
}

/// A number with one digit more after it, or the greatest one.
fn with_digit(number: u64, digit: u8) -> u64
    ensures { result ≡ with_digit number digit }
{
    number
        .saturating_mul(10)
        .saturating_add(u64::from(digit.saturating_sub(b'0')))
}

/// Whether a byte is a digit other than 0.
fn is_size_digit(byte: u8) -> bool
    ensures { result ≡ is_size_digit byte }
{
    matches!(byte, b'1'..=b'9')
}

/// Whether a byte writes a live cell, or comes before the letter of one.
fn is_live_byte(byte: u8) -> bool
    ensures { result ≡ is_live_byte byte }
{
    matches!(byte, b'o'..=b'y' | b'A'..=b'X')
}

/// Whether a byte is neither of a count nor whitespace.
fn is_state_byte(byte: u8) -> bool
    ensures { result ≡ is_state_byte byte }
{
    byte > b' ' && !byte.is_ascii_digit()
}

/// Whether a text has a live cell.
fn has_live_byte(text: &[u8]) -> bool
    ensures { result ≡ list_any is_live_byte text.now }
{
    text.iter().any(|byte| is_live_byte(*byte))
}

/// Whether a text has a state.
fn has_state_byte(text: &[u8]) -> bool
    ensures { result ≡ list_any is_state_byte text.now }
{
    text.iter().any(|byte| is_state_byte(*byte))
}

/// Whether a text has a live cell, or one came before.
fn has_cell_after(has_cell: bool, text: &[u8]) -> bool
    ensures { result ≡ (has_cell || list_any is_live_byte text.now) }
{
    has_cell || has_live_byte(text)
}

/// Whether a row has a state in a text, or had one before.
fn is_begun_after(is_begun: bool, text: &[u8]) -> bool
    ensures { result ≡ (is_begun || list_any is_state_byte text.now) }
{
    is_begun || has_state_byte(text)
}

impl Header {
    /// What is known after a byte more of the header. Before its rule, which begins with `r`, all digits are those of sizes.
    fn after_byte(self, byte: u8) -> Header
        ensures { (text : List ℕ) (lines : List (List ℕ))
            → warning_in_header result text lines ≡ warning_in_header self (byte ∷ text) lines }
    {
        match self {
            Header::Width { is_sized } => {
                if byte == b'r' {
                    return Header::Rule {
                        is_sized,
                        height: 0,
                    };
                }
                if byte == b'y' {
                    return Header::Height {
                        is_sized,
                        height: 0,
                    };
                }
                Header::Width {
                    is_sized: is_sized || is_size_digit(byte),
                }
            }
            Header::Height { is_sized, height } => {
                if byte == b'r' {
                    return Header::Rule { is_sized, height };
                }
                Header::Height {
                    is_sized: is_sized || is_size_digit(byte),
                    height: if byte.is_ascii_digit() {
                        with_digit(height, byte)
                    } else {
                        height
                    },
                }
            }
            Header::Rule { .. } => self,
        }
    }

    /// What is known after more of the header, which ends no line.
    fn after_text(self, text: &[u8]) -> Header
        ensures { (rest : List ℕ) (lines : List (List ℕ))
            → warning_in_header result rest lines
            ≡ warning_in_header self (text.now ++ rest) lines }
    {
        let mut header = self;
        let mut left = text;
        while let [first, others @ ..] = left {
            header = header.after_byte(*first);
            left = others;
        }
        header
    }

    /// What is known of the items where the header has ended.
    fn into_items(self) -> Items
        ensures { (lines : List (List ℕ))
            → warning_in_items result lines ≡ warning_in_header self [] lines }
    {
        let (is_sized, missing) = match self {
            Header::Width { is_sized } => (is_sized, 0),
            Header::Height { is_sized, height } | Header::Rule { is_sized, height } => {
                (is_sized, height)
            }
        };
        Items {
            is_sized,
            has_cell: false,
            missing,
            count: 0,
            is_begun: false,
        }
    }
}

/// The text without the digits at its end.
fn before_last_digits(text: &[u8]) -> &[u8]
    ensures { result.now ≡ without_last is_ascii_digit text.now }
{
    let mut rest = text;
    while let [others @ .., last] = rest {
        if !last.is_ascii_digit() {
            break;
        }
        rest = others;
    }
    rest
}

/// The number whose digits are this number's and then those of a text.
fn number_from(number: u64, text: &[u8]) -> u64
    ensures { result ≡ number_from number text.now }
{
    let mut number = number;
    let mut left = text;
    while let [first, others @ ..] = left {
        if first.is_ascii_digit() {
            number = with_digit(number, *first);
        }
        left = others;
    }
    number
}

/// Where the digits at the end of a text begin.
fn digits_start(text: &[u8]) -> usize
    ensures place { result ≡ length (without_last is_ascii_digit text.now) }
    ensures inside { result ≤ length text.now }
{
    before_last_digits(text).len()
}

/// The count that the item after a text has, where the first item of the text has this one so far.
fn count_after(count: u64, text: &[u8]) -> u64
    ensures { result ≡ count_after count text.now }
{
    let start = digits_start(text);
    if start == 0 {
        return number_from(count, text);
    }
    number_from(0, &text[start..])
}

impl Items {
    /// What is known after counts, states and whitespace.
    fn after_states(self, text: &[u8]) -> Items
        requires mark { has_byte (byte "!") text.now ≡ false }
        requires row { has_byte (byte "$") text.now ≡ false }
        ensures { (rest : List ℕ) (lines : List (List ℕ))
            → warning_in_items result (rest ∷ lines)
            ≡ warning_in_items self ((text.now ++ rest) ∷ lines) }
    {
        Items {
            is_sized: self.is_sized,
            has_cell: has_cell_after(self.has_cell, text),
            missing: self.missing,
            count: count_after(self.count, text),
            is_begun: is_begun_after(self.is_begun, text),
        }
    }

    /// What is known after a `$`.
    fn after_row(self) -> Items
        ensures { (rest : List ℕ) (lines : List (List ℕ))
            → warning_in_items result (rest ∷ lines)
            ≡ warning_in_items self ((byte "$" ∷ rest) ∷ lines) }
    {
        Items {
            is_sized: self.is_sized,
            has_cell: self.has_cell,
            missing: self.missing.saturating_sub(self.count.max(1)),
            count: 0,
            is_begun: false,
        }
    }

    /// What is known after more items, which have no `!`.
    fn after_items(self, text: &[u8]) -> Items
        requires { has_byte (byte "!") text.now ≡ false }
        ensures { (rest : List ℕ) (lines : List (List ℕ))
            → warning_in_items result (rest ∷ lines)
            ≡ warning_in_items self ((text.now ++ rest) ∷ lines) }
    {
        let mut items = self;
        let mut left = text;
        while let Some(end) = place_of(left, b'$') {
            items = items.after_states(&left[..end]).after_row();
            left = &left[end + 1..];
        }
        items.after_states(left)
    }

    /// What is known after the end of a line.
    fn after_feed(self) -> Items
        ensures { (lines : List (List ℕ))
            → warning_in_items result lines ≡ warning_in_items self ([] ∷ lines) }
    {
        Items {
            is_sized: self.is_sized,
            has_cell: self.has_cell,
            missing: self.missing,
            count: 0,
            is_begun: self.is_begun,
        }
    }

    /// Whether no cell came, although the header gives a size.
    fn lacks_cells(self) -> bool
        ensures { result ≡ (self.is_sized && not self.has_cell) }
    {
        self.is_sized && !self.has_cell
    }

    /// The warning if the file ends here.
    fn at_end(self) -> Option<Warning>
        ensures none { result ≡ warning_in_items self [] }
        ensures line { result ≡ warning_in_items self ([] ∷ []) }
    {
        if self.lacks_cells() {
            Some(Warning::NoCells)
        } else if self.missing > u64::from(self.is_begun) {
            Some(Warning::Cut)
        } else {
            None
        }
    }

    /// What is known after more of a line of items, perhaps with a `!`.
    fn after_line(self, text: &[u8]) -> Part
        ensures { (rest : List ℕ) (lines : List (List ℕ))
            → warning_in_rle result rest lines
            ≡ warning_in_items self ((text.now ++ rest) ∷ lines_of_items lines) }
    {
        let Some(end) = place_of(text, b'!') else {
            return Part::Items(self.after_items(text));
        };
        let items = self.after_items(&text[..end]);
        if items.lacks_cells() {
            return Part::NoCells;
        }
        Part::After(Ending::Space.after_text(&text[end + 1..]))
    }
}

impl Ending {
    /// What is known after a byte more of a line after the `!`.
    fn after_byte(self, byte: u8) -> Ending
        ensures { (text : List ℕ) (lines : List (List ℕ))
            → warning_in_ending result text lines ≡ warning_in_ending self (byte ∷ text) lines }
    {
        match self {
            Ending::Space if byte == b'x' => Ending::Width,
            Ending::Width if byte == b'=' => Ending::Header,
            Ending::Header => self,
            Ending::Space | Ending::Width if is_whitespace(byte) => self,
            _ => Ending::Rest,
        }
    }

    /// What is known after more of a line after the `!`.
    fn after_text(self, text: &[u8]) -> Ending
        ensures { (rest : List ℕ) (lines : List (List ℕ))
            → warning_in_ending result rest lines
            ≡ warning_in_ending self (text.now ++ rest) lines }
    {
        let mut ending = self;
        let mut left = text;
        while let [first, others @ ..] = left {
            if matches!(ending, Ending::Header | Ending::Rest) {
                break;
            }
            ending = ending.after_byte(*first);
            left = others;
        }
        ending
    }
}

impl Part {
    /// What is known after more of a line.
    pub(crate) fn after_text(self, text: &[u8]) -> Part
        ensures { (rest : List ℕ) (lines : List (List ℕ))
            → warning_in_rle result rest lines ≡ warning_in_rle self (text.now ++ rest) lines }
    {
        let [first, ..] = text else {
            return self;
        };
        match self {
            Part::LineStart => {
                if *first == b'x' {
                    Part::Header(Header::Width { is_sized: false }.after_text(text))
                } else {
                    Part::Comment
                }
            }
            Part::Header(header) => Part::Header(header.after_text(text)),
            Part::ItemsStart(items) => {
                if *first == b'#' {
                    Part::ItemsComment(items)
                } else {
                    items.after_line(text)
                }
            }
            Part::Items(items) => items.after_line(text),
            Part::After(ending) => Part::After(ending.after_text(text)),
            Part::Comment | Part::ItemsComment(_) | Part::NoCells => self,
        }
    }

    /// What is known after the end of a line.
    pub(crate) fn after_feed(self) -> Part
        ensures { (text : List ℕ) (lines : List (List ℕ))
            → warning_in_rle result text lines ≡ warning_in_rle self [] (text ∷ lines) }
    {
        match self {
            Part::LineStart | Part::Comment => Part::LineStart,
            Part::Header(header) => Part::ItemsStart(header.into_items()),
            Part::ItemsStart(items) | Part::Items(items) => Part::ItemsStart(items.after_feed()),
            Part::ItemsComment(items) => Part::ItemsStart(items),
            Part::After(Ending::Header) | Part::NoCells => self,
            Part::After(_) => Part::After(Ending::Space),
        }
    }

    /// The warning if the file ends here.
    pub(crate) fn at_end(self) -> Option<Warning>
        ensures { result ≡ warning_in_rle self [] [] }
    {
        match self {
            Part::LineStart | Part::Comment => None,
            Part::Header(header) => header.into_items().at_end(),
            Part::ItemsStart(items) | Part::ItemsComment(items) | Part::Items(items) => {
                items.at_end()
            }
            Part::After(Ending::Header) => Some(Warning::Joined),
            Part::After(_) => None,
            Part::NoCells => Some(Warning::NoCells),
        }
    }
}
