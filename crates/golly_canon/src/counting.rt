//! How many names a list or an output has, counted as its bytes pass.

use std::cell::Cell;

/// The names of a text that were begun so far.
#[derive(Drop)]
pub(crate) struct NameCount {
    // The byte that ends a name.
    end: u8,
    // The byte that ends a name in the other kind of text.
    other_end: u8,
    // Whether the bytes so far end within a name.
    is_within: Cell<bool>,
    /// How many names that is, without the empty ones.
    pub count: Cell<usize>,
    empty_count: Cell<usize>,
    /// Whether there is a NUL where each name ends in LF, or an LF where each ends in NUL.
    pub has_other_end: Cell<bool>,
}

impl NameCount {
    /// No names. Whether each ends in NUL, or else in LF.
    pub(crate) fn new(zero: bool) -> NameCount {
        let (end, other_end) = if zero { (b'\0', b'\n') } else { (b'\n', b'\0') };
        NameCount {
            end,
            other_end,
            is_within: Cell::new(false),
            count: Cell::new(0),
            empty_count: Cell::new(0),
            has_other_end: Cell::new(false),
        }
    }

    /// Takes the next bytes of the text.
    pub(crate) fn take(&self, bytes: &[u8]) {
        let mut is_within = self.is_within.get();
        let mut count = self.count.get();
        let mut empty_count = self.empty_count.get();
        for byte in bytes {
            if *byte != self.end {
                count = count.saturating_add(usize::from(!is_within));
                is_within = true;
            } else {
                empty_count = empty_count.saturating_add(usize::from(!is_within));
                is_within = false;
            }
        }
        self.is_within.set(is_within);
        self.count.set(count);
        self.empty_count.set(empty_count);
        self.has_other_end.set(self.has_other_end.get() || bytes.contains(&self.other_end));
    }

    /// How many groups these names are in, where an empty name separates two groups.
    pub(crate) fn groups(&self) -> usize {
        match self.count.get() {
            0 => 0,
            _ => self.empty_count.get().saturating_add(1),
        }
    }
}
