//! Texts that the texts of images are no less than, found without the images.

ghost use Rattle.std.specs.Prelude.{◌≡◌, ◌^◌, ℕ, [], ◌∷◌, ◌++◌, true, false, min, pos, ◌+ℤ◌, ◌≤ℤ◌, ◌<ℤ◌, IfSome, IfOk, IfErr, MatchOption};
ghost use Rattle.life_forms.specs.Words.{MAX_LEVEL, Rule, IsMemory, IsTrimmed, IsOrdered, IsSquareBox, IsLesserText, IsUpTo, content, universe_in, is_blank_tree, is_life, IsCornerLeaf, IsLowerBound, IsMiddling, Leaf, header_lines_text, eight, leaf_start, node_text, rows_of, square_text, turned_tree, turn_of};

use crate::leaves::{leaf_rows, turned_leaf};
use crate::order::is_up_to;
use crate::patterns::most_squares;
use life_base::{Bounds, Kind, Rule};
use life_mc::{Line, append_line, append_prefix};
use life_pattern::Pattern;
use life_pattern::laws::squares_are_centred;
use life_quad::{Shared, Turn};
use life_slide::leaf_at;
use std::alloc::Global;

/// A form of two states whose root is of level 13 at most has no more different squares than this: 16 of level 1, 65,536 of level 2, and 1,398,101
/// above them.
pub(crate) const SQUARES_OF_LEVEL_13: u64 = 1_463_653;

/// A text has capacity for so many bytes at once: that of a small pattern needs no more.
const FIRST_BYTES: usize = 1 << 10;

/// Header lines have capacity for so many bytes at once: those of most rules need no more.
const PREFIX_BYTES: usize = 1 << 6;

/// `append_line` needs capacity for so many bytes, whatever line it writes.
const LEAF_BYTES: usize = 105;

/// No text begins with this byte or a greater one.
const ABOVE_TEXTS: u8 = 255;

/// Whether a side of a box has at most 2^12 cells.
fn is_within(low: i64, high: i64) -> bool
    requires { IsOrdered low high }
    ensures { result ≡ true → high <ℤ (low +ℤ pos (2 ^ 12)) }
{
    high - low < 4096
}

/// Whether a side of a box has more than four cells.
fn is_beyond(low: i64, high: i64) -> bool
    requires { IsOrdered low high }
    ensures { result ≡ true → (low +ℤ pos 4) ≤ℤ high }
{
    high - low >= 4
}

/// Whether the sides of a box have at most 2^12 cells, and one of them more than four: then the form has a root above level 3 and at most of level 13.
fn is_middling(found: &Bounds) -> bool
    requires columns { IsOrdered found.now.left found.now.right }
    requires rows { IsOrdered found.now.top found.now.bottom }
    ensures { result ≡ true → IsMiddling found.now }
{
    if !is_within(found.left, found.right) {
        return false;
    }
    if !is_within(found.top, found.bottom) {
        return false;
    }
    is_beyond(found.left, found.right) || is_beyond(found.top, found.bottom)
}

/// Whether a rule is a B/S rule.
pub(crate) fn is_life(rule: &Rule) -> bool
    ensures { result ≡ is_life rule.now }
{
    match rule {
        Rule::Life(_) => true,
        Rule::Named(_) => false,
    }
}

/// Where eight columns or rows begin at one end of a side of a box.
fn leaf_start(last: bool, low: i64, high: i64) -> i64
    requires { IsOrdered low high }
    ensures { result ≡ leaf_start last low high }
{
    if last { high - 7 } else { low }
}

/// The leaf in a corner of a pattern's box, unless it is blank or the store doesn't give its cells.
fn corner_leaf(
    store: &Shared,
    pattern: &Pattern,
    found: &Bounds,
    columns: bool,
    rows: bool,
) -> Option<u64>
    requires trimmed { IsTrimmed store.now pattern.now }
    requires bounds { IsSquareBox (content store.now pattern.now.root) found.now }
    requires life { is_life pattern.now.rule ≡ true }
    ensures { IfSome result (λ leaf. IsCornerLeaf (universe_in store.now pattern.now)
        found.now columns rows (eight leaf)) }
{
    let x = leaf_start(columns, found.left, found.right);
    let y = leaf_start(rows, found.top, found.bottom);
    let leaf = leaf_at(store, pattern.root, x, y)?;
    if leaf == 0 {
        return None;
    }
    Some(leaf)
}

/// A text that is greater than each canonical text.
pub(crate) fn above_texts(alloc: Global) -> Result<Vec<u8>, Kind>
    ensures text { IfOk result (λ text. text.items ≡ 255 ∷ []) }
    ensures memory { IfErr result IsMemory }
{
    let mut text = Vec::with_capacity(alloc, FIRST_BYTES)?;
    text.push(ABOVE_TEXTS)?;
    Ok(text)
}

/// The lesser of two texts, byte by byte.
pub(crate) fn lesser_of(first: Vec<u8>, second: Vec<u8>) -> Vec<u8>
    ensures { IsLesserText first.items second.items result.items }
{
    if is_up_to(&first, &second) {
        first
    } else {
        second
    }
}

/// The header lines of a pattern's text.
pub(crate) fn prefix_of(alloc: Global, pattern: &Pattern) -> Result<Vec<u8>, Kind>
    ensures text { IfOk result (λ text. text.items
        ≡ header_lines_text pattern.now.rule pattern.now.generation) }
    ensures memory { IfErr result IsMemory }
{
    let mut text = Vec::with_capacity(alloc, PREFIX_BYTES)?;
    append_prefix(&mut text, &pattern.rule, pattern.generation)?;
    Ok(text)
}

/// The header lines, and the line of a leaf.
pub(crate) fn leaf_text(alloc: Global, prefix: &[u8], leaf: u64) -> Result<Vec<u8>, Kind>
    ensures text { IfOk result (λ text. text.items
        ≡ prefix.now ++ node_text (Leaf (rows_of (eight leaf)))) }
    ensures memory { IfErr result IsMemory }
{
    let mut text = Vec::with_capacity(alloc, prefix.len() + LEAF_BYTES)?;
    text.extend_from_slice(prefix)?;
    append_line(&mut text, &Line::Leaf(leaf_rows(leaf)))?;
    Ok(text)
}

/// The lesser of the texts of a leaf, turned by two turns, after the header lines of a B/S rule.
fn lesser_leaf_text(
    alloc: Global,
    prefix: &[u8],
    leaf: u64,
    columns: bool,
    rows: bool,
) -> Result<Vec<u8>, Kind>
    requires live { is_blank_tree (eight leaf) ≡ false }
    ensures first { IfOk result (λ text. (rule : Rule) (generation : ℕ) → is_life rule ≡ true
        → prefix.now ≡ header_lines_text rule generation
        → IsUpTo text.items (square_text rule generation
        (turned_tree (turn_of false columns rows) (eight leaf)))) }
    ensures second { IfOk result (λ text. (rule : Rule) (generation : ℕ) → is_life rule ≡ true
        → prefix.now ≡ header_lines_text rule generation
        → IsUpTo text.items (square_text rule generation
        (turned_tree (turn_of true columns rows) (eight leaf)))) }
{
    let turn = Turn {
        exchange: false,
        columns,
        rows,
    };
    let exchanged = Turn {
        exchange: true,
        columns,
        rows,
    };
    let first = leaf_text(alloc, prefix, turned_leaf(turn, leaf))?;
    let second = leaf_text(alloc, prefix, turned_leaf(exchanged, leaf))?;
    Ok(lesser_of(first, second))
}

/// A text that those of two images of a pattern, moved, are no less than, if one is found: with columns and rows counted from the other side or not, and with
/// both exchanged. It is that of the first leaf of the one or the other image, after the header lines `prefix`, which all have. Where there is one, neither
/// image has more squares than a form may have.
pub(crate) fn lower_bound(
    alloc: Global,
    store: &Shared,
    pattern: &Pattern,
    prefix: &[u8],
    found: &Option<Bounds>,
    columns: bool,
    rows: bool,
) -> Option<Vec<u8>>
    requires trimmed { IsTrimmed store.now pattern.now }
    requires prefix { prefix.now ≡ header_lines_text pattern.now.rule pattern.now.generation }
    requires bounds { MatchOption found.now
        (is_blank_tree (content store.now pattern.now.root) ≡ true)
        (IsSquareBox (content store.now pattern.now.root)) }
    ensures { IfSome result (λ text. IsLowerBound MAX_LEVEL (min (2 ^ 21) store.now.limit)
        (universe_in store.now pattern.now) columns rows text.items) }
{
    let Some(found) = found else {
        return None;
    };
    lower_bound_in(alloc, store, pattern, prefix, found, columns, rows)
}

/// The same of a pattern with this box.
fn lower_bound_in(
    alloc: Global,
    store: &Shared,
    pattern: &Pattern,
    prefix: &[u8],
    found: &Bounds,
    columns: bool,
    rows: bool,
) -> Option<Vec<u8>>
    requires trimmed { IsTrimmed store.now pattern.now }
    requires prefix { prefix.now ≡ header_lines_text pattern.now.rule pattern.now.generation }
    requires bounds { IsSquareBox (content store.now pattern.now.root) found.now }
    ensures { IfSome result (λ text. IsLowerBound MAX_LEVEL (min (2 ^ 21) store.now.limit)
        (universe_in store.now pattern.now) columns rows text.items) }
{
    squares_are_centred();
    if most_squares(store) < SQUARES_OF_LEVEL_13 {
        return None;
    }
    if !is_life(&pattern.rule) || !is_middling(found) {
        return None;
    }
    let leaf = corner_leaf(store, pattern, found, columns, rows)?;
    match lesser_leaf_text(alloc, prefix, leaf, columns, rows) {
        Ok(text) => Some(text),
        Err(_) => None,
    }
}
