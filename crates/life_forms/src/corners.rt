//! Texts of the images of small patterns, from the cells in a corner of their box. No form is made.

ghost use Rattle.std.specs.Prelude.{◌≡◌, ◌⊎◌, ◌++◌, ◌≤◌, ◌^◌, ℕ, List, map, flat_map, pos, ◌+ℤ◌, ◌≤ℤ◌, ◌<ℤ◌, true, false, min, IfSome, IfOk, OnOk, IfErr, MatchOption};
ghost use Rattle.life_forms.specs.Words.{Rule, IsMemory, IsTrimmed, IsOrdered, IsSquareBox, content, universe_in, is_blank_tree, is_life, header_lines_text, node_text, eight, quad, square, square_text, turned_tree, turn_of, one_of_four, side_of, turned_half, place, number_of_quarter, HasSidesUpTo, IsCorner, IsLesserOfThree, IsNearPlane, IsSquareAt, block_tree, corner_root, corner_tree, leaf_line, seated, square_start, with_leaf};

use crate::leaves::{leaf_rows, turned_leaf};
use crate::lower_bounds::{SQUARES_OF_LEVEL_13, is_life, leaf_text, lesser_of};
use crate::patterns::most_squares;
use life_base::{Bounds, Kind};
use life_mc::{LONGEST_NODE_LINE, Line, append_line};
use life_pattern::Pattern;
use life_pattern::laws::squares_are_centred;
use life_quad::{Shared, Turn};
use life_slide::leaf_at;
use std::alloc::Global;

/// The text of a pattern of sixteen columns and rows has at most so many bytes after its header lines: six lines.
const BYTES_OF_SIXTEEN: usize = 630;

/// The text of a pattern of eight columns and rows has at most so many: two lines.
const BYTES_OF_EIGHT: usize = 210;

/// The cells of a square of level 4, by its four quarters, which are leaves.
#[derive(Clone, Copy)]
pub(crate) struct Block {
    pub(crate) nw: u64,
    pub(crate) ne: u64,
    pub(crate) sw: u64,
    pub(crate) se: u64,
}

/// All cells of a small pattern, from a corner of its box on.
#[derive(Clone, Copy)]
pub(crate) enum Corner {
    /// The pattern has at most four columns and rows: the leaf with that corner of the box in its middle. It is the root of an image.
    Four(u64),
    /// The pattern has at most eight columns and rows: the leaf in that corner of the box.
    Eight(u64),
    /// The pattern has at most sixteen columns and rows: the square of level 4 in that corner of the box.
    Sixteen(Block),
}

/// Whether a side of a box has at most so many cells.
fn is_up_to_side(cells: u8, low: i64, high: i64) -> bool
    requires { IsOrdered low high }
    ensures short { result ≡ true → high <ℤ (low +ℤ pos cells) }
    ensures long { result ≡ false → (low +ℤ pos cells) ≤ℤ high }
{
    high - low < i64::from(cells)
}

/// Whether both sides of a box have at most so many cells.
fn has_sides_up_to(cells: u8, found: &Bounds) -> bool
    requires columns { IsOrdered found.now.left found.now.right }
    requires rows { IsOrdered found.now.top found.now.bottom }
    ensures short { result ≡ true → HasSidesUpTo (pos cells) found.now }
    ensures long { result ≡ false → ((found.now.left +ℤ pos cells) ≤ℤ found.now.right)
        ⊎ ((found.now.top +ℤ pos cells) ≤ℤ found.now.bottom) }
{
    if !is_up_to_side(cells, found.left, found.right) {
        return false;
    }
    is_up_to_side(cells, found.top, found.bottom)
}

/// Where columns or rows begin at one end of a side of a box: so many before the first one, or so many before the last one.
fn square_start(last: bool, low: i64, high: i64, before_first: u8, before_last: u8) -> i64
    requires { IsOrdered low high }
    ensures { result ≡ square_start last low high before_first before_last }
{
    if last {
        high - i64::from(before_last)
    } else {
        low - i64::from(before_first)
    }
}

/// Whether the eight columns or rows that begin at a place meet a side of a box.
fn meets(low: i64, high: i64, place: i64) -> bool
    requires near { IsNearPlane place }
    ensures within { result ≡ true → (place ≤ℤ high) × (low ≤ℤ (place +ℤ pos 7)) }
    ensures apart { result ≡ false → (high <ℤ place) ⊎ ((place +ℤ pos 7) <ℤ low) }
{
    if high < place {
        return false;
    }
    low <= place + 7
}

/// The cells of a leaf near a pattern's box, unless the store doesn't give them. A leaf that doesn't meet the box is blank.
fn leaf_near(store: &Shared, pattern: &Pattern, found: &Bounds, x: i64, y: i64) -> Option<u64>
    requires trimmed { IsTrimmed store.now pattern.now }
    requires bounds { IsSquareBox (content store.now pattern.now.root) found.now }
    requires life { is_life pattern.now.rule ≡ true }
    requires column { IsNearPlane x }
    requires row { IsNearPlane y }
    ensures { IfSome result
        (λ leaf. eight leaf ≡ square (universe_in store.now pattern.now).cell 3 x y) }
{
    if !meets(found.left, found.right, x) {
        return Some(0);
    }
    if !meets(found.top, found.bottom, y) {
        return Some(0);
    }
    leaf_at(store, pattern.root, x, y)
}

/// The cells of a leaf about a corner of a pattern's box, or in it, unless the store doesn't give them, or they are blank.
fn leaf_in(
    store: &Shared,
    pattern: &Pattern,
    found: &Bounds,
    columns: bool,
    rows: bool,
    before_first: u8,
    before_last: u8,
) -> Option<u64>
    requires trimmed { IsTrimmed store.now pattern.now }
    requires bounds { IsSquareBox (content store.now pattern.now.root) found.now }
    requires life { is_life pattern.now.rule ≡ true }
    ensures { IfSome result (λ leaf. IsSquareAt (universe_in store.now pattern.now) 3
        (square_start columns found.now.left found.now.right before_first before_last)
        (square_start rows found.now.top found.now.bottom before_first before_last)
        (eight leaf)) }
{
    let x = square_start(columns, found.left, found.right, before_first, before_last);
    let y = square_start(rows, found.top, found.bottom, before_first, before_last);
    let leaf = leaf_near(store, pattern, found, x, y)?;
    if leaf == 0 {
        return None;
    }
    Some(leaf)
}

/// Whether one of four leaves isn't blank.
fn has_cells(nw: u64, ne: u64, sw: u64, se: u64) -> bool
    ensures { result ≡ true
        → is_blank_tree (quad (eight nw) (eight ne) (eight sw) (eight se)) ≡ false }
{
    if nw != 0 {
        return true;
    }
    if ne != 0 {
        return true;
    }
    if sw != 0 {
        return true;
    }
    se != 0
}

/// The cells of the square of level 4 that begins near a pattern's box, unless the store doesn't give them, or they are blank.
fn block_near(store: &Shared, pattern: &Pattern, found: &Bounds, x: i64, y: i64) -> Option<Block>
    requires trimmed { IsTrimmed store.now pattern.now }
    requires bounds { IsSquareBox (content store.now pattern.now.root) found.now }
    requires life { is_life pattern.now.rule ≡ true }
    requires column { IsNearPlane x }
    requires row { IsNearPlane y }
    requires east { IsNearPlane (x +ℤ pos 8) }
    requires south { IsNearPlane (y +ℤ pos 8) }
    ensures { IfSome result (λ block. IsSquareAt (universe_in store.now pattern.now) 4 x y
        (block_tree block)) }
{
    let nw = leaf_near(store, pattern, found, x, y)?;
    let ne = leaf_near(store, pattern, found, x + 8, y)?;
    let sw = leaf_near(store, pattern, found, x, y + 8)?;
    let se = leaf_near(store, pattern, found, x + 8, y + 8)?;
    if !has_cells(nw, ne, sw, se) {
        return None;
    }
    Some(Block { nw, ne, sw, se })
}

/// The cells of the square of level 4 in a corner of a pattern's box, unless the store doesn't give them, or they are blank.
fn block_in(
    store: &Shared,
    pattern: &Pattern,
    found: &Bounds,
    columns: bool,
    rows: bool,
) -> Option<Block>
    requires trimmed { IsTrimmed store.now pattern.now }
    requires bounds { IsSquareBox (content store.now pattern.now.root) found.now }
    requires life { is_life pattern.now.rule ≡ true }
    ensures { IfSome result (λ block. IsSquareAt (universe_in store.now pattern.now) 4
        (square_start columns found.now.left found.now.right 0 15)
        (square_start rows found.now.top found.now.bottom 0 15) (block_tree block)) }
{
    let x = square_start(columns, found.left, found.right, 0, 15);
    let y = square_start(rows, found.top, found.bottom, 0, 15);
    block_near(store, pattern, found, x, y)
}

/// The cells of a pattern of at most four columns and rows.
fn four_in(
    store: &Shared,
    pattern: &Pattern,
    found: &Bounds,
    columns: bool,
    rows: bool,
) -> Option<Corner>
    requires trimmed { IsTrimmed store.now pattern.now }
    requires bounds { IsSquareBox (content store.now pattern.now.root) found.now }
    requires life { is_life pattern.now.rule ≡ true }
    requires enough { 1463653 ≤ min (2 ^ 21) store.now.limit }
    requires short { HasSidesUpTo (pos 4) found.now }
    ensures { IfSome result (IsCorner (min (2 ^ 21) store.now.limit)
        (universe_in store.now pattern.now) columns rows) }
{
    squares_are_centred();
    let leaf = leaf_in(store, pattern, found, columns, rows, 4, 3)?;
    Some(Corner::Four(leaf))
}

/// The cells of a pattern of at most eight columns and rows, and more than four of the one or the other.
fn eight_in(
    store: &Shared,
    pattern: &Pattern,
    found: &Bounds,
    columns: bool,
    rows: bool,
) -> Option<Corner>
    requires trimmed { IsTrimmed store.now pattern.now }
    requires bounds { IsSquareBox (content store.now pattern.now.root) found.now }
    requires life { is_life pattern.now.rule ≡ true }
    requires enough { 1463653 ≤ min (2 ^ 21) store.now.limit }
    requires short { HasSidesUpTo (pos 8) found.now }
    requires long { ((found.now.left +ℤ pos 4) ≤ℤ found.now.right)
        ⊎ ((found.now.top +ℤ pos 4) ≤ℤ found.now.bottom) }
    ensures { IfSome result (IsCorner (min (2 ^ 21) store.now.limit)
        (universe_in store.now pattern.now) columns rows) }
{
    squares_are_centred();
    let leaf = leaf_in(store, pattern, found, columns, rows, 0, 7)?;
    Some(Corner::Eight(leaf))
}

/// The cells of a pattern of at most sixteen columns and rows, and more than eight of the one or the other.
fn sixteen_in(
    store: &Shared,
    pattern: &Pattern,
    found: &Bounds,
    columns: bool,
    rows: bool,
) -> Option<Corner>
    requires trimmed { IsTrimmed store.now pattern.now }
    requires bounds { IsSquareBox (content store.now pattern.now.root) found.now }
    requires life { is_life pattern.now.rule ≡ true }
    requires enough { 1463653 ≤ min (2 ^ 21) store.now.limit }
    requires short { HasSidesUpTo (pos 16) found.now }
    requires long { ((found.now.left +ℤ pos 8) ≤ℤ found.now.right)
        ⊎ ((found.now.top +ℤ pos 8) ≤ℤ found.now.bottom) }
    ensures { IfSome result (IsCorner (min (2 ^ 21) store.now.limit)
        (universe_in store.now pattern.now) columns rows) }
{
    squares_are_centred();
    let block = block_in(store, pattern, found, columns, rows)?;
    Some(Corner::Sixteen(block))
}

/// The cells of a pattern under a B/S rule, if it has at most sixteen columns and rows, and the store gives them.
fn cells_in(
    store: &Shared,
    pattern: &Pattern,
    found: &Bounds,
    columns: bool,
    rows: bool,
) -> Option<Corner>
    requires trimmed { IsTrimmed store.now pattern.now }
    requires bounds { IsSquareBox (content store.now pattern.now.root) found.now }
    requires life { is_life pattern.now.rule ≡ true }
    requires enough { 1463653 ≤ min (2 ^ 21) store.now.limit }
    ensures { IfSome result (IsCorner (min (2 ^ 21) store.now.limit)
        (universe_in store.now pattern.now) columns rows) }
{
    if has_sides_up_to(4, found) {
        return four_in(store, pattern, found, columns, rows);
    }
    if has_sides_up_to(8, found) {
        return eight_in(store, pattern, found, columns, rows);
    }
    if has_sides_up_to(16, found) {
        return sixteen_in(store, pattern, found, columns, rows);
    }
    None
}

/// All cells of a pattern, from a corner of its box on, if its rule is a B/S rule, it has at most sixteen columns and rows, its store gives them, and none
/// of its images has more squares than a form may have. `found` is the bounding box of the pattern.
pub(crate) fn corner_of(
    store: &Shared,
    pattern: &Pattern,
    found: &Option<Bounds>,
    columns: bool,
    rows: bool,
) -> Option<Corner>
    requires trimmed { IsTrimmed store.now pattern.now }
    requires bounds { MatchOption found.now
        (is_blank_tree (content store.now pattern.now.root) ≡ true)
        (IsSquareBox (content store.now pattern.now.root)) }
    ensures { IfSome result (IsCorner (min (2 ^ 21) store.now.limit)
        (universe_in store.now pattern.now) columns rows) }
{
    if most_squares(store) < SQUARES_OF_LEVEL_13 {
        return None;
    }
    if !is_life(&pattern.rule) {
        return None;
    }
    let Some(found) = found else {
        return None;
    };
    cells_in(store, pattern, found, columns, rows)
}

/// One of the four leaves of a square of level 4.
fn one_of(east: bool, south: bool, block: Block) -> u64
    ensures { eight result ≡ one_of_four east south (eight block.nw) (eight block.ne)
        (eight block.sw) (eight block.se) }
{
    match (east, south) {
        (false, false) => block.nw,
        (true, false) => block.ne,
        (false, true) => block.sw,
        (true, true) => block.se,
    }
}

/// The leaf of a square of level 4 that a turn brings to this quarter.
fn leaf_before(turn: Turn, east: bool, south: bool, block: Block) -> u64
    ensures { eight result ≡ one_of_four (side_of turn east south) (turned_half turn east south)
        (eight block.nw) (eight block.ne) (eight block.sw) (eight block.se) }
{
    if turn.exchange {
        one_of(turn.columns != south, turn.rows != east, block)
    } else {
        one_of(turn.columns != east, turn.rows != south, block)
    }
}

/// A square of level 4, turned.
fn turned_block(turn: Turn, block: Block) -> Block
    ensures { block_tree result ≡ turned_tree turn (block_tree block) }
{
    Block {
        nw: turned_leaf(turn, leaf_before(turn, false, false, block)),
        ne: turned_leaf(turn, leaf_before(turn, true, false, block)),
        sw: turned_leaf(turn, leaf_before(turn, false, true, block)),
        se: turned_leaf(turn, leaf_before(turn, true, true, block)),
    }
}

/// How many leaves of a list come before the first one with these cells: all of them, if there is none.
fn place_of(known: &[u64], leaf: u64) -> usize
    ensures { result ≡ place (map eight known.now) (eight leaf) }
{
    for at in 0..known.len() {
        if known[at] == leaf {
            return at;
        }
    }
    known.len()
}

/// The number that represents a leaf in a node line: 0 for a blank leaf, else its place in the list, counted from 1. A leaf that isn't in the list yet is
/// added at its end.
fn numbered(known: &mut Vec<u64>, leaf: u64) -> Result<u64, Kind>
    ensures known { OnOk result
        (map eight known.new.items ≡ with_leaf (map eight known.old.items) (eight leaf)) }
    ensures number { IfOk result
        (λ number. number ≡ number_of_quarter (map eight known.new.items) (eight leaf)) }
    ensures memory { IfErr result IsMemory }
{
    if leaf == 0 {
        return Ok(0);
    }
    let place = place_of(known, leaf);
    if place < known.len() {
        return Ok(place as u64 + 1);
    }
    known.push(leaf)?;
    Ok(place as u64 + 1)
}

/// Adds the lines of leaves at the end.
fn append_leaves(text: &mut Vec<u8>, leaves: &[u64]) -> Result<(), Kind>
    ensures ok { OnOk result (text.new.items
        ≡ text.old.items ++ flat_map node_text (map leaf_line leaves.now)) }
    ensures memory { IfErr result IsMemory }
{
    for leaf in leaves {
        append_line(text, &Line::Leaf(leaf_rows(*leaf)))?;
    }
    Ok(())
}

/// The text of the square of level 4 whose south-eastern quarter is this leaf, and whose other quarters are blank, after the header lines of a B/S rule.
fn text_of_eight(alloc: Global, prefix: &[u8], leaf: u64) -> Result<Vec<u8>, Kind>
    requires live { is_blank_tree (eight leaf) ≡ false }
    ensures text { IfOk result (λ text. (rule : Rule) (generation : ℕ) → is_life rule ≡ true
        → prefix.now ≡ header_lines_text rule generation
        → text.items ≡ square_text rule generation (seated (eight leaf))) }
    ensures memory { IfErr result IsMemory }
{
    let mut text = Vec::with_capacity(alloc, prefix.len() + BYTES_OF_EIGHT)?;
    text.extend_from_slice(prefix)?;
    append_line(&mut text, &Line::Leaf(leaf_rows(leaf)))?;
    let root = Line::Quad {
        level: 4,
        nw: 0,
        ne: 0,
        sw: 0,
        se: 1,
    };
    append_line(&mut text, &root)?;
    Ok(text)
}

/// The text of the square of level 5 whose south-eastern quarter is this square, and whose other quarters are blank, after the header lines of a B/S rule.
fn text_of_sixteen(alloc: Global, prefix: &[u8], block: Block) -> Result<Vec<u8>, Kind>
    requires live { is_blank_tree (block_tree block) ≡ false }
    ensures text { IfOk result (λ text. (rule : Rule) (generation : ℕ) → is_life rule ≡ true
        → prefix.now ≡ header_lines_text rule generation
        → text.items ≡ square_text rule generation (seated (block_tree block))) }
    ensures memory { IfErr result IsMemory }
{
    let mut known = Vec::with_capacity(alloc, 4)?;
    let nw = numbered(&mut known, block.nw)?;
    let ne = numbered(&mut known, block.ne)?;
    let sw = numbered(&mut known, block.sw)?;
    let se = numbered(&mut known, block.se)?;
    let mut text = Vec::with_capacity(alloc, prefix.len() + BYTES_OF_SIXTEEN)?;
    text.extend_from_slice(prefix)?;
    append_leaves(&mut text, &known)?;
    let quarter = Line::Quad {
        level: 4,
        nw,
        ne,
        sw,
        se,
    };
    append_line(&mut text, &quarter)?;
    let root = Line::Quad {
        level: 5,
        nw: 0,
        ne: 0,
        sw: 0,
        se: known.len() as u64 + 1,
    };
    append_line(&mut text, &root)?;
    Ok(text)
}

/// The text of the image by a turn of a pattern with these cells from the corner on where the image begins, after the header lines of its B/S rule.
fn text_of_corner(alloc: Global, prefix: &[u8], turn: Turn, corner: Corner) -> Result<Vec<u8>, Kind>
    requires live { is_blank_tree (corner_tree corner) ≡ false }
    ensures text { IfOk result (λ text. (rule : Rule) (generation : ℕ) → is_life rule ≡ true
        → prefix.now ≡ header_lines_text rule generation
        → text.items ≡ square_text rule generation (corner_root turn corner)) }
    ensures memory { IfErr result IsMemory }
{
    match corner {
        Corner::Four(leaf) => leaf_text(alloc, prefix, turned_leaf(turn, leaf)),
        Corner::Eight(leaf) => text_of_eight(alloc, prefix, turned_leaf(turn, leaf)),
        Corner::Sixteen(block) => text_of_sixteen(alloc, prefix, turned_block(turn, block)),
    }
}

/// The least of a text and of those of the two images that begin in a corner of a pattern's box, after the header lines of its B/S rule.
pub(crate) fn lesser_text_of_corner(
    alloc: Global,
    prefix: &[u8],
    corner: Corner,
    columns: bool,
    rows: bool,
    best: Vec<u8>,
) -> Result<Vec<u8>, Kind>
    requires live { is_blank_tree (corner_tree corner) ≡ false }
    ensures text { IfOk result (λ text. (rule : Rule) (generation : ℕ) → is_life rule ≡ true
        → prefix.now ≡ header_lines_text rule generation
        → IsLesserOfThree best.items
        (square_text rule generation (corner_root (turn_of false columns rows) corner))
        (square_text rule generation (corner_root (turn_of true columns rows) corner))
        text.items) }
    ensures memory { IfErr result IsMemory }
{
    let turn = Turn {
        exchange: false,
        columns,
        rows,
    };
    let exchanged = Turn {
        exchange: true,
        columns,
        rows,
    };
    let first = text_of_corner(alloc, prefix, turn, corner)?;
    let second = text_of_corner(alloc, prefix, exchanged, corner)?;
    Ok(lesser_of(lesser_of(best, first), second))
}
