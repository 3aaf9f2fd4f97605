//! A pattern file whose bytes are watched as they pass, to warn of one that was probably damaged.

ghost use Rattle.std.specs.Prelude.{◌≡◌, ◌++◌, ◌∷◌, ℕ, List, [], IsTrue};
ghost use Rattle.file_hints.specs.Words.{warning_after, warning_by, warning_in, warning_of};

use crate::macrocell_watch::Place;
use crate::places::place_of;
use crate::rle_watch::{Header, Part};
use crate::warnings::Warning;

/// What is known of a file by its bytes so far.
#[derive(Clone, Copy)]
pub(crate) enum State {
    /// None of them came.
    Start,
    /// `[` came.
    Bracket,
    /// `[M` came.
    Letter,
    /// `[M2` came.
    Digit,
    /// They begin with `[M2]`.
    Macrocell(Place),
    /// They don't begin with `[`.
    Rle(Part),
    /// They begin with `[`, and not as `[M2]` does.
    Neither,
}

impl State {
    /// What is known after a byte more of a line, where the bytes begin as `[M2]` does, and its `]` hasn't come.
    fn after_mark_byte(self, byte: u8) -> State
        ensures { (text : List ℕ) (lines : List (List ℕ))
            → warning_in result text lines ≡ warning_in self (byte ∷ text) lines }
    {
        match self {
            State::Start if byte == b'[' => State::Bracket,
            State::Start if byte == b'x' => {
                State::Rle(Part::Header(Header::Width { is_sized: false }))
            }
            State::Start => State::Rle(Part::Comment),
            State::Bracket if byte == b'M' => State::Letter,
            State::Letter if byte == b'2' => State::Digit,
            State::Digit if byte == b']' => State::Macrocell(Place::FirstLine),
            State::Bracket | State::Letter | State::Digit => State::Neither,
            State::Macrocell(place) => State::Macrocell(place.after_byte(byte)),
            State::Rle(part) => State::Rle(part.after_text(&[byte])),
            State::Neither => State::Neither,
        }
    }

    /// What is known after more of a line.
    fn after_text(self, text: &[u8]) -> State
        ensures { (rest : List ℕ) (lines : List (List ℕ))
            → warning_in result rest lines ≡ warning_in self (text.now ++ rest) lines }
    {
        let mut state = self;
        let mut left = text;
        while let [first, others @ ..] = left {
            match state {
                State::Macrocell(place) => return State::Macrocell(place.after_text(left)),
                State::Rle(part) => return State::Rle(part.after_text(left)),
                State::Neither => return state,
                _ => {}
            }
            state = state.after_mark_byte(*first);
            left = others;
        }
        state
    }

    /// What is known after the end of a line.
    fn after_feed(self) -> State
        ensures { (text : List ℕ) (lines : List (List ℕ))
            → warning_in result text lines ≡ warning_in self [] (text ∷ lines) }
    {
        match self {
            State::Macrocell(place) => State::Macrocell(place.after_feed()),
            State::Rle(part) => State::Rle(part.after_feed()),
            State::Start => State::Rle(Part::LineStart),
            _ => State::Neither,
        }
    }

    /// Whether the rest of the file doesn't matter.
    fn is_known(self) -> bool
        ensures { IsTrue result → (bytes others : List ℕ)
            → warning_by self bytes ≡ warning_by self others }
    {
        match self {
            State::Macrocell(place) => place.is_known(),
            State::Neither => true,
            _ => false,
        }
    }

    /// What is known after more of the file.
    fn after_piece(self, piece: &[u8]) -> State
        ensures { (rest : List ℕ) → warning_by result rest ≡ warning_by self (piece.now ++ rest) }
    {
        let mut state = self;
        let mut left = piece;
        while let Some(end) = place_of(left, b'\n') {
            if state.is_known() {
                return state;
            }
            state = state.after_text(&left[..end]).after_feed();
            left = &left[end + 1..];
        }
        state.after_text(left)
    }
}

/// A file that is watched as its bytes pass.
#[derive(Clone, Copy)]
pub struct Watch {
    state: State,
}

impl Watch {
    /// A file of which no byte came.
    pub fn new() -> Watch
        ensures { (rest : List ℕ) → warning_after result rest ≡ warning_of rest }
    {
        Watch {
            state: State::Start,
        }
    }

    /// The same after the next piece of the file, which may be cut anywhere.
    pub fn after(self, piece: &[u8]) -> Watch
        ensures { (rest : List ℕ)
            → warning_after result rest ≡ warning_after self (piece.now ++ rest) }
    {
        Watch {
            state: self.state.after_piece(piece),
        }
    }

    /// The warning of the file if it ends here.
    pub fn warning(self) -> Option<Warning>
        ensures { result ≡ warning_after self [] }
    {
        match self.state {
            State::Macrocell(place) => place.at_end(),
            State::Rle(part) => part.at_end(),
            _ => None,
        }
    }
}

/// The warning of a file with these bytes, if it is accepted.
pub fn warning_of(bytes: &[u8]) -> Option<Warning>
    ensures { result ≡ warning_of bytes.now }
{
    Watch::new().after(bytes).warning()
}
