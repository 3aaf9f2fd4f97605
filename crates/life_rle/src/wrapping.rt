//! Texts of items, on lines of at most 70 bytes.

ghost use Rattle.std.specs.Prelude.{◌≡◌, ℕ, ◌+◌, ◌<◌, ◌≤◌, ◌++◌, ◌∷◌, [], length, drop, OnOk, IfOk, IfErr, IfSome, MatchOption};
ghost use Rattle.life_rle.specs.Words.{Rule, state_text, state_letters, item_count, Cells, RowEnds, count_text, item_text, with_gap, tag_text, PutsItems, text_with, IsMemory};

use crate::item::Item;
use itoa::write_digits;
use life_base::{Kind, Rule, State, append};

/// The most bytes on a line of items.
const LINE_WIDTH: usize = 70;

/// Space for a line feed, the 20 digits of a count, and the two bytes of a state.
const ITEM_SPACE: usize = 23;

/// Writes a byte at the end of the space, and returns its place.
fn write_byte(space: &mut [u8; ITEM_SPACE], byte: u8) -> usize
    ensures written { drop result space.new ≡ byte ∷ [] }
    ensures start { result ≡ 22 }
{
    space[22] = byte;
    22
}

/// Writes two bytes at the end of the space, and returns where they start.
fn write_pair(space: &mut [u8; ITEM_SPACE], prefix: u8, letter: u8) -> usize
    ensures written { drop result space.new ≡ prefix ∷ letter ∷ [] }
    ensures start { result ≡ 21 }
{
    space[21] = prefix;
    space[22] = letter;
    21
}

/// The letter of a state under a name, where its text is one byte.
#[inline(always)]
fn single_lettered(state: State) -> Option<u8>
    ensures { MatchOption result (24 < state) (λ letter. state_letters state ≡ letter ∷ []) }
{
    if state == 0 {
        Some(b'.')
    } else if state <= 24 {
        Some(b'@' + state)
    } else {
        None
    }
}

/// The letter of a state, where its text is one byte.
#[inline(always)]
fn single_state(rule: &Rule, state: State) -> Option<u8>
    ensures { MatchOption result ((24 < state) × (state_text rule.now state ≡ state_letters state))
        (λ letter. state_text rule.now state ≡ letter ∷ []) }
{
    match rule {
        Rule::Life(_) => Some(if state == 0 { b'b' } else { b'o' }),
        Rule::Named(_) => single_lettered(state),
    }
}

/// The letter of dead cells.
#[inline(always)]
fn dead_letter(rule: &Rule) -> u8
    ensures { state_text rule.now 0 ≡ result ∷ [] }
{
    match rule {
        Rule::Life(_) => b'b',
        Rule::Named(_) => b'.',
    }
}

/// Writes the text of a state at the end of the space, and returns where it starts.
fn write_state(space: &mut [u8; ITEM_SPACE], rule: &Rule, state: State) -> usize
    ensures written { drop result space.new ≡ state_text rule.now state }
    ensures start { result + length (state_text rule.now state) ≡ 23 }
{
    match single_state(rule, state) {
        Some(letter) => write_byte(space, letter),
        None => write_pair(space, b'o' + (state - 1) / 24, b'A' + (state - 1) % 24),
    }
}

/// Writes the text of an item without its count at the end of the space, and returns where it starts.
fn write_tag(space: &mut [u8; ITEM_SPACE], rule: &Rule, item: Item) -> usize
    ensures written { drop result space.new ≡ tag_text rule.now item }
    ensures start { result + length (tag_text rule.now item) ≡ 23 }
{
    match item {
        Item::Cells { state, .. } => write_state(space, rule, state),
        Item::RowEnds { .. } => write_byte(space, b'$'),
    }
}

/// The count of an item.
fn item_count(item: Item) -> u64
    ensures { result ≡ item_count item }
{
    match item {
        Item::Cells { count, .. } => count,
        Item::RowEnds { count } => count,
    }
}

/// Writes the text of an item at the end of the space, and returns where it starts; a count of 1 is not written.
fn write_item(space: &mut [u8; ITEM_SPACE], rule: &Rule, item: Item) -> usize
    ensures written { drop result space.new ≡ item_text rule.now item }
    ensures start { result + length (item_text rule.now item) ≡ 23 }
    ensures feed { 1 ≤ result }
{
    let tag = write_tag(space, rule, item);
    let count = item_count(item);
    if count == 1 {
        return tag;
    }
    write_digits(count, space, tag)
}

/// The letter of an item, where its text without the count is one byte.
#[inline(always)]
fn single_letter(rule: &Rule, item: Item) -> Option<u8>
    ensures { IfSome result (λ letter. tag_text rule.now item ≡ letter ∷ []) }
{
    match item {
        Item::Cells { state, .. } => single_state(rule, state),
        Item::RowEnds { .. } => Some(b'$'),
    }
}

/// Lines of items: the text so far, and how many bytes its last line has.
#[derive(Drop)]
pub(crate) struct ItemLines {
    pub(crate) text: Vec<u8>,
    pub(crate) used: usize,
}

impl ItemLines {
    /// Lines that begin after a text.
    pub(crate) fn behind(text: Vec<u8>) -> ItemLines
        ensures { result ≡ record { text = text; used = 0 } }
    {
        ItemLines { text, used: 0 }
    }

    /// Writes a count of one digit, which is left out where it is 1, and a letter on a line with space for both.
    #[inline(always)]
    fn put_short(&mut self, count: u64, letter: u8) -> Result<(), Kind>
        requires digit { count < 10 }
        requires space { self.old.used + 2 ≤ 70 }
        ensures text { OnOk result
            (self.new.text.items ≡ self.old.text.items ++ (count_text count ++ letter ∷ [])) }
        ensures used { OnOk result
            (self.new.used ≡ self.old.used + length (count_text count ++ letter ∷ [])) }
        ensures most { OnOk result (self.new.used ≤ self.old.used + 2) }
        ensures memory { IfErr result IsMemory }
    {
        if count != 1 {
            self.text.push(b'0' + count as u8)?;
            self.text.push(letter)?;
            self.used += 2;
            return Ok(());
        }
        self.text.push(letter)?;
        self.used += 1;
        Ok(())
    }

    /// Writes an item: one of a byte or two at once, where it fits on the line.
    #[inline(always)]
    pub(crate) fn put_item(&mut self, rule: &Rule, item: Item) -> Result<(), Kind>
        requires { self.old.used ≤ 70 }
        ensures item { OnOk result (PutsItems rule.now self.old (item ∷ []) self.new) }
        ensures memory { IfErr result IsMemory }
    {
        let count = item_count(item);
        if count >= 10 || self.used + 2 > LINE_WIDTH {
            return self.put_long(rule, item);
        }
        match single_letter(rule, item) {
            Some(letter) => self.put_short(count, letter),
            None => self.put_long(rule, item),
        }
    }

    /// Writes cells of any count.
    #[inline(never)]
    fn put_long_cells(&mut self, rule: &Rule, count: u64, state: State) -> Result<(), Kind>
        requires { self.old.used ≤ 70 }
        ensures item { OnOk result (PutsItems rule.now self.old (Cells count state ∷ []) self.new) }
        ensures memory { IfErr result IsMemory }
    {
        self.put_text(rule, Item::Cells { count, state })
    }

    /// Writes ends of rows of any count.
    #[inline(never)]
    fn put_long_row_ends(&mut self, rule: &Rule, count: u64) -> Result<(), Kind>
        requires { self.old.used ≤ 70 }
        ensures item { OnOk result (PutsItems rule.now self.old (RowEnds count ∷ []) self.new) }
        ensures memory { IfErr result IsMemory }
    {
        self.put_text(rule, Item::RowEnds { count })
    }

    /// Writes an item of any length. It is passed on taken apart, so that it needs no place in memory where it is short.
    #[inline(always)]
    fn put_long(&mut self, rule: &Rule, item: Item) -> Result<(), Kind>
        requires { self.old.used ≤ 70 }
        ensures item { OnOk result (PutsItems rule.now self.old (item ∷ []) self.new) }
        ensures memory { IfErr result IsMemory }
    {
        match item {
            Item::Cells { count, state } => self.put_long_cells(rule, count, state),
            Item::RowEnds { count } => self.put_long_row_ends(rule, count),
        }
    }

    /// Writes the text of an item.
    fn put_text(&mut self, rule: &Rule, item: Item) -> Result<(), Kind>
        requires { self.old.used ≤ 70 }
        ensures item { OnOk result (PutsItems rule.now self.old (item ∷ []) self.new) }
        ensures memory { IfErr result IsMemory }
    {
        let mut space = [0; ITEM_SPACE];
        let start = write_item(&mut space, rule, item);
        let len = ITEM_SPACE - start;
        if self.used + len <= LINE_WIDTH {
            append(&mut self.text, &space[start..])?;
            self.used += len;
            return Ok(());
        }
        space[start - 1] = b'\n';
        append(&mut self.text, &space[start - 1..])?;
        self.used = len;
        Ok(())
    }

    /// Writes dead cells, if any.
    #[inline(always)]
    pub(crate) fn put_gap(&mut self, rule: &Rule, count: u64) -> Result<(), Kind>
        requires { self.old.used ≤ 70 }
        ensures gap { OnOk result (PutsItems rule.now self.old (with_gap count []) self.new) }
        ensures memory { IfErr result IsMemory }
    {
        if count == 0 {
            return Ok(());
        }
        self.put_item(rule, Item::Cells { count, state: 0 })
    }

    /// Writes cells and the dead cells after them, if any.
    #[inline(never)]
    fn put_long_run(&mut self, rule: &Rule, count: u64, state: State, gap: u64) -> Result<(), Kind>
        requires { self.old.used ≤ 70 }
        ensures run { OnOk result
            (PutsItems rule.now self.old (Cells count state ∷ with_gap gap []) self.new) }
        ensures memory { IfErr result IsMemory }
    {
        self.put_item(rule, Item::Cells { count, state })?;
        self.put_gap(rule, gap)
    }

    /// Writes a count of cells and one of dead cells, if any, each of one digit, on a line with space for both.
    #[inline(always)]
    fn put_short_run(&mut self, rule: &Rule, count: u64, letter: u8, gap: u64) -> Result<(), Kind>
        requires digit { count < 10 }
        requires gap_digit { gap < 10 }
        requires space { self.old.used + 4 ≤ 70 }
        ensures run { (state : ℕ) → state_text rule.now state ≡ letter ∷ [] → OnOk result
            (PutsItems rule.now self.old (Cells count state ∷ with_gap gap []) self.new) }
        ensures memory { IfErr result IsMemory }
    {
        self.put_short(count, letter)?;
        if gap == 0 {
            return Ok(());
        }
        self.put_short(gap, dead_letter(rule))
    }

    /// Writes cells and the dead cells after them, if any: at once where each takes a byte or two and both fit on the line.
    #[inline(always)]
    pub(crate) fn put_run(
        &mut self,
        rule: &Rule,
        count: u64,
        state: State,
        gap: u64,
    ) -> Result<(), Kind>
        requires { self.old.used ≤ 70 }
        ensures run { OnOk result
            (PutsItems rule.now self.old (Cells count state ∷ with_gap gap []) self.new) }
        ensures memory { IfErr result IsMemory }
    {
        if count >= 10 || gap >= 10 || self.used + 4 > LINE_WIDTH {
            return self.put_long_run(rule, count, state, gap);
        }
        match single_state(rule, state) {
            Some(letter) => self.put_short_run(rule, count, letter, gap),
            None => self.put_long_run(rule, count, state, gap),
        }
    }

    /// Writes the `!` after the last item, ends its line, and returns the text.
    pub(crate) fn finish(mut self) -> Result<Vec<u8>, Kind>
        requires { self.used ≤ 70 }
        ensures text { (rule : Rule) → IfOk result (λ text. text.items ≡ text_with rule self []) }
        ensures memory { IfErr result IsMemory }
    {
        if self.used >= LINE_WIDTH {
            append(&mut self.text, b"\n")?;
        }
        append(&mut self.text, b"!\n")?;
        Ok(self.text)
    }
}
