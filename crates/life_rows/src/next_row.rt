//! A row of the next generation, of three rows of words.
ghost use Rattle.std.specs.Prelude.{◌≡◌, ℕ, suc, ◌+◌, ◌^◌, ◌-◌, ◌<◌, ◌≤◌, true, false, IfErr, MatchOption, OnOk};
ghost use Rattle.life_rows.specs.Words.{AreAt, AreInner, AreRowWords, cell_in_words, has_digit, HasNoCells, IsBlankFrom, IsMemory, IsNextWord, IsVisited, next_in_row};

use crate::row_cells::{
    NEVER, RowPlace, at_edge, columns_around, next_place, one_place_on, push_word,
};
use life_base::{Kind, LifeRule, MAX_LEVEL};
use life_next::next_word;
use life_pieces::Three;
use life_strip::RowWord;

// Three rows at one place.
type RowPlaces = Three<RowPlace>;

// Whether one of three rows has a cell at a place or the one before it.
#[inline(always)]
fn has_cells(at: RowPlaces) -> bool
    ensures none { result ≡ false → HasNoCells at }
    ensures some { result ≡ true → ¬ HasNoCells at }
{
    let west = at.before.west | at.here.west | at.after.west;
    let here = at.before.here | at.here.here | at.after.here;
    west | here != 0
}

// The first place at or after `place` that has a word in one of three rows, or is next to a place that has one.
#[inline(always)]
fn place_to_visit(
    north: &[RowWord],
    here: &[RowWord],
    south: &[RowWord],
    at: RowPlaces,
    place: u64,
) -> Option<u64>
    requires north { AreInner north.now }
    requires here { AreInner here.now }
    requires south { AreInner south.now }
    requires at { AreAt north.now here.now south.now place at }
    requires within { place ≤ 2 ^ (MAX_LEVEL - 6) }
    ensures { MatchOption result (IsBlankFrom north.now here.now south.now place)
        (IsVisited north.now here.now south.now at place) }
{
    if has_cells(at) {
        return Some(place);
    }
    let next = next_place(north, at.before)
        .min(next_place(here, at.here))
        .min(next_place(south, at.after));
    if next == NEVER {
        return None;
    }
    Some(next - 1)
}

// The three rows one place further east.
#[inline(always)]
fn all_one_place_on(
    north: &[RowWord],
    here: &[RowWord],
    south: &[RowWord],
    at: RowPlaces,
    place: u64,
) -> RowPlaces
    requires north { AreRowWords north.now }
    requires here { AreRowWords here.now }
    requires south { AreRowWords south.now }
    requires at { AreAt north.now here.now south.now place at }
    requires within { place < 2 ^ MAX_LEVEL }
    ensures { AreAt north.now here.now south.now (place + 1) result }
{
    Three {
        before: one_place_on(north, at.before, place),
        here: one_place_on(here, at.here, place),
        after: one_place_on(south, at.after, place),
    }
}

// The next states of the cells of a place, by the rows at the place and at the one after it.
#[inline(always)]
fn next_cells(rule: &LifeRule, at: RowPlaces, next: RowPlaces) -> u64
    requires { has_digit rule.now.sets.births 0 ≡ false }
    ensures { IsNextWord rule.now at next result }
{
    let words = Three {
        before: columns_around(at.before, next.before),
        here: columns_around(at.here, next.here),
        after: columns_around(at.after, next.after),
    };
    next_word(&words, rule)
}

// The cells of the middle one of three rows in the next generation.
pub(crate) fn next_row(
    rule: &LifeRule,
    north: &[RowWord],
    here: &[RowWord],
    south: &[RowWord],
    next: &mut Vec<RowWord>,
) -> Result<(), Kind>
    requires north { AreInner north.now }
    requires here { AreInner here.now }
    requires south { AreInner south.now }
    ensures words { OnOk result (AreRowWords next.new.items) }
    ensures edge { OnOk result (cell_in_words next.new.items 0 ≡ 0) }
    ensures cells { OnOk result ((west : ℕ) → cell_in_words next.new.items (suc west)
        ≡ next_in_row rule.now (cell_in_words north.now) (cell_in_words here.now)
        (cell_in_words south.now) west) }
    ensures refusals { IfErr result IsMemory }
{
    // To read a field opens the invariant to the proof: no cell is born without live neighbours.
    let _ = &rule.births;
    next.clear();
    let mut at = Three {
        before: at_edge(),
        here: at_edge(),
        after: at_edge(),
    };
    let mut from = 0;
    while let Some(place) = place_to_visit(north, here, south, at, from) {
        let after = all_one_place_on(north, here, south, at, place);
        push_word(next, place, next_cells(rule, at, after))?;
        at = after;
        from = place + 1;
    }
    Ok(())
}
