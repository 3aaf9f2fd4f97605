//! The names of a run: its arguments, and then those in its list.

ghost use Rattle.std.specs.Prelude.{◌≡◌, ◌<◌, ◌∷◌, [], length, map, MatchOption};
ghost use Rattle.file_keys.specs.Words.{bytes_of_name, Listed, name_of_file, names_among, names_in_list, names_left, pieces_of};

use memchr::memchr;

/// A name of a run.
#[derive(Clone, Copy)]
pub enum FileName<'a> {
    /// An argument.
    Word(&'a str),
    /// A name in a list.
    Listed(&'a [u8]),
}

impl<'a> FileName<'a> {
    /// The bytes of the name.
    pub(crate) fn bytes(self) -> &'a [u8]
        ensures { result.now ≡ bytes_of_name (name_of_file self.entry) }
    {
        match self {
            FileName::Word(word) => word.as_bytes(),
            FileName::Listed(name) => name,
        }
    }
}

/// The names of a run that are still to be processed.
#[derive(Clone, Copy)]
pub struct Names<'w, 'a> {
    pub words: &'w [&'a str],
    /// How many arguments were taken.
    pub at: usize,
    pub list: &'a [u8],
    /// The byte that ends a name of the list.
    pub end: u8,
}

/// The first name of a list whose names end in this byte, and what follows its end. The last name may lack its end.
fn first_name(list: &[u8], end: u8) -> (&[u8], &[u8])
    requires { 0 < length list.now }
    ensures first { pieces_of end list.now ≡ result.0.now ∷ pieces_of end result.1.now }
    ensures shorter { length result.1.now < length list.now }
{
    match memchr(end, list) {
        Some(at) => (&list[..at], &list[at + 1..]),
        None => (list, &[]),
    }
}

impl<'w, 'a> Names<'w, 'a> {
    /// The names of these arguments, and then those in the list, each of which ends in NUL (`zero`) or in LF.
    pub(crate) fn new(words: &'w [&'a str], list: &'a [u8], zero: bool) -> Names<'w, 'a>
        ensures { names_left result
            ≡ names_among zero (map (λ word. word.now) words.entry.now) list.entry.now }
    {
        let end = if zero { b'\0' } else { b'\n' };
        let at = 0;
        Names {
            words,
            at,
            list,
            end,
        }
    }

    /// Takes the next name of the list, if there is one. An empty name is passed over.
    fn next_listed(&mut self) -> Option<&'a [u8]>
        ensures next { MatchOption result (names_in_list self.old ≡ [])
            (λ name. names_in_list self.old ≡ Listed name.now ∷ names_in_list self.new) }
        ensures words { self.new.words ≡ self.old.words }
        ensures at { self.new.at ≡ self.old.at }
    {
        while !self.list.is_empty() {
            let (name, rest) = first_name(self.list, self.end);
            self.list = rest;
            if !name.is_empty() {
                return Some(name);
            }
        }
        None
    }

    /// Takes the next name, if there is one.
    pub(crate) fn next_name(&mut self) -> Option<FileName<'a>>
        ensures { MatchOption result (names_left self.old ≡ [])
            (λ name. names_left self.old ≡ name_of_file name ∷ names_left self.new) }
    {
        if let Some(word) = self.words.get(self.at) {
            self.at += 1;
            return Some(FileName::Word(*word));
        }
        let name = self.next_listed()?;
        Some(FileName::Listed(name))
    }
}
