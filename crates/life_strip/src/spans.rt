//! Strips of squares, and how two of them make one of the next level.
ghost use Rattle.std.specs.Prelude.{◌≡◌, ℕ, suc, ◌+◌, ◌-◌, ◌*◌, ◌^◌, ◌<◌, ◌≤◌, ◌++◌, Some, None, MatchOption, length, take, slice_get, get_or, IfOk, IfErr, OnOk};
ghost use Rattle.life_strip.specs.Words.{SpanValue, ArePieces, CanJoin, IsWalk, quad_of, with_squares, blank, Grows, GrowsOnly, IsStrip, AreBefore, AreWithin, HaveColumns, IsPaired, EndsAfter, IsPast, id_at, id_or, IsExtended, IsAt, Rise, quad_at, square_in, goes_to, SomeColumn, IsMemory};

use crate::spare::Spare;
use life_base::{Kind, MAX_LEVEL};
use life_quad::{Id, Quarters, Squares};

// Columns side by side with one square, from `start` to before `end`.
#[derive(Clone, Copy)]
pub(crate) struct Span {
    pub(crate) start: u64,
    pub(crate) end: u64,
    pub(crate) square: Id,
}

// A row of squares of one level, blank where no span is.
#[derive(Drop)]
pub(crate) struct Strip {
    pub(crate) level: u8,
    pub(crate) spans: Vec<Span>,
}

// A column beyond every plane.
pub(crate) const NEVER: u64 = u64::MAX;

// The place of a strip in a column: the span that is there or comes next, without its columns before that one.
#[derive(Clone, Copy)]
pub(crate) struct StripPlace {
    pub(crate) index: usize,
    // `NEVER` if no span is left.
    pub(crate) start: u64,
    // `NEVER` if no span is left.
    pub(crate) end: u64,
    pub(crate) square: Id,
}

// A square of two columns of two strips, and the place of each strip in the eastern of them.
#[derive(Clone, Copy)]
struct Joined {
    square: Id,
    north: StripPlace,
    south: StripPlace,
}

// The quarters of a square of two columns of two strips, and the place of each strip in the eastern of them.
#[derive(Clone, Copy)]
struct Four {
    quarters: Quarters,
    north: StripPlace,
    south: StripPlace,
}

// A walk along two strips: the places of both in a column of the next level, and how many squares the last step gathered.
#[derive(Clone, Copy)]
struct Walk {
    column: u64,
    north: StripPlace,
    south: StripPlace,
    count: usize,
}

// How many squares of a strip are joined at once at most.
const BATCH: usize = 32;

// How many spans two strips have at least whose squares are joined in batches.
const LEAST_BATCH: usize = 12;

// The place of a strip in a column, where the spans before the index end before it and the span there, if there is one, ends after it.
#[inline(always)]
fn place_at(spans: &[Span], index: usize, column: u64, blank: Id) -> StripPlace
    requires columns { HaveColumns spans.now }
    requires past { IsPast spans.now index column }
    requires ends { EndsAfter spans.now index column }
    requires column { column < NEVER }
    ensures place { IsAt spans.now column result }
    ensures end { (d : SpanValue) → index < length spans.now
        → result.end ≡ (get_or spans.now index d).end }
    ensures over { length spans.now ≤ index → NEVER ≤ result.end }
{
    if index < spans.len() {
        let span = spans[index];
        return StripPlace {
            index,
            start: span.start.max(column),
            end: span.end,
            square: span.square,
        };
    }
    StripPlace {
        index,
        start: NEVER,
        end: NEVER,
        square: blank,
    }
}

// The index of the span that a later column is in or before. Whether the span of the place ends before that column can't be foreseen, so the code has no
// branch here.
#[inline(always)]
fn index_from(place: StripPlace, column: u64, len: usize) -> usize
    requires { place.end ≤ column → place.index < len }
    ensures stays { column < place.end → result ≡ place.index }
    ensures next { place.end ≤ column → result ≡ place.index + 1 }
{
    if column < place.end {
        place.index
    } else {
        place.index + 1
    }
}

// The place in a later column, no later than where the one before ends.
#[inline(always)]
fn pass(spans: &[Span], place: StripPlace, column: u64, blank: Id) -> StripPlace
    requires columns { HaveColumns spans.now }
    requires rises { Rise spans.now }
    requires place { (before : ℕ) × (before ≤ column) × IsAt spans.now before place }
    requires reach { column ≤ place.end }
    requires column { column < NEVER }
    ensures place { IsAt spans.now column result }
    ensures later { place.end ≤ result.end }
{
    let index = index_from(place, column, spans.len());
    place_at(spans, index, column, blank)
}

// The square in a column before the end of a place.
#[inline(always)]
fn square_of(place: StripPlace, column: u64, blank: Id) -> Id
    ensures { result ≡ square_in place blank column }
{
    if place.start <= column {
        place.square
    } else {
        blank
    }
}

// The square in the first column.
pub(crate) fn first_square(spans: &[Span], blank: Id) -> Id
    requires { HaveColumns spans.now }
    ensures { result ≡ id_or blank (id_at spans.now 0) }
{
    square_of(place_at(spans, 0, 0, blank), 0, blank)
}

// The square in a column.
pub(crate) fn square_in_column(spans: &[Span], column: u64, blank: Id) -> Id
    ensures { result ≡ id_or blank (id_at spans.now column) }
{
    for span in spans {
        if column < span.end {
            return if span.start <= column {
                span.square
            } else {
                blank
            };
        }
    }
    blank
}

// The column up to which it goes on.
#[inline(always)]
fn end_of(place: StripPlace, column: u64) -> u64
    ensures { result ≡ goes_to place column }
{
    if place.start <= column {
        place.end
    } else {
        place.start
    }
}

// The quarters of the square of two columns of the upper strip above two of the lower. The store isn't read: it is the one of which the contract
// speaks.
#[inline(always)]
fn quarters_at<S: Squares>(
    squares: &S,
    upper: &[Span],
    lower: &[Span],
    level: u8,
    empty: Id,
    column: u64,
    north: StripPlace,
    south: StripPlace,
) -> Four
    requires low { level < MAX_LEVEL }
    requires column { column ≤ 2 ^ MAX_LEVEL }
    requires upper { IsStrip (S.knows squares.now) (S.content squares.now) level upper.now }
    requires lower { IsStrip (S.knows squares.now) (S.content squares.now) level lower.now }
    requires upper_columns { HaveColumns upper.now }
    requires lower_columns { HaveColumns lower.now }
    requires upper_rises { Rise upper.now }
    requires lower_rises { Rise lower.now }
    requires known { S.knows squares.now empty }
    requires blank { S.content squares.now empty ≡ blank level }
    requires north { IsAt upper.now (2 * column) north }
    requires south { IsAt lower.now (2 * column) south }
    ensures can_join { CanJoin (S.knows squares.now) (S.content squares.now) result.quarters }
    ensures square { quad_of (S.content squares.now) result.quarters
        ≡ quad_at (S.content squares.now) level upper.now lower.now column }
    ensures north { IsAt upper.now (2 * column + 1) result.north }
    ensures south { IsAt lower.now (2 * column + 1) result.south }
    ensures north_later { north.end ≤ result.north.end }
    ensures south_later { south.end ≤ result.south.end }
{
    let _ = squares;
    let west = 2 * column;
    let east = 2 * column + 1;
    let north_east = pass(upper, north, east, empty);
    let south_east = pass(lower, south, east, empty);
    let nw = square_of(north, west, empty);
    let ne = square_of(north_east, east, empty);
    let sw = square_of(south, west, empty);
    let se = square_of(south_east, east, empty);
    Four {
        quarters: Quarters { nw, ne, sw, se },
        north: north_east,
        south: south_east,
    }
}

// The square of two columns of the upper strip above two of the lower.
fn join_at<S: Squares>(
    squares: &mut S,
    upper: &[Span],
    lower: &[Span],
    level: u8,
    empty: Id,
    column: u64,
    north: StripPlace,
    south: StripPlace,
) -> Result<Joined, Kind>
    requires low { level < MAX_LEVEL }
    requires column { column ≤ 2 ^ MAX_LEVEL }
    requires upper { IsStrip (S.knows squares.old) (S.content squares.old) level upper.now }
    requires lower { IsStrip (S.knows squares.old) (S.content squares.old) level lower.now }
    requires upper_columns { HaveColumns upper.now }
    requires lower_columns { HaveColumns lower.now }
    requires upper_rises { Rise upper.now }
    requires lower_rises { Rise lower.now }
    requires known { S.knows squares.old empty }
    requires blank { S.content squares.old empty ≡ blank level }
    requires north { IsAt upper.now (2 * column) north }
    requires south { IsAt lower.now (2 * column) south }
    ensures known { IfOk result (λ r. S.knows squares.new r.square) }
    ensures square { IfOk result (λ r. S.content squares.new r.square
        ≡ quad_at (S.content squares.old) level upper.now lower.now column) }
    ensures north { IfOk result (λ r. IsAt upper.now (2 * column + 1) r.north) }
    ensures south { IfOk result (λ r. IsAt lower.now (2 * column + 1) r.south) }
    ensures north_later { IfOk result (λ r. north.end ≤ r.north.end) }
    ensures south_later { IfOk result (λ r. south.end ≤ r.south.end) }
    ensures grows { GrowsOnly S.Squares squares.old squares.new result
        (λ P. P (quad_at (S.content squares.old) level upper.now lower.now column)) }
{
    let four = quarters_at(squares, upper, lower, level, empty, column, north, south);
    let Quarters { nw, ne, sw, se } = four.quarters;
    let square = squares.join(nw, ne, sw, se)?;
    Ok(Joined {
        square,
        north: four.north,
        south: four.south,
    })
}

// The column after the last span.
fn covered(spans: &[Span]) -> u64
    ensures last { (span : SpanValue) → slice_get spans.now (length spans.now - 1) ≡ Some span
        → result ≡ span.end }
{
    match spans.last() {
        Some(span) => span.end,
        None => 0,
    }
}

// How many spans come of two strips, as a rule: each span of the two adds one at most, and there are never more spans than columns.
fn spans_of_pair(upper: &[Span], lower: &[Span]) -> usize
    ensures { result ≤ length upper.now + length lower.now }
{
    let columns = covered(upper).max(covered(lower)) / 2 + 1;
    (upper.len() + lower.len()).min(columns as usize)
}

// The strip of the next level whose squares have two squares of the upper strip above two of the lower, each joined before the next one is
// looked at.
fn pair_one_by_one<S: Squares>(
    squares: &mut S,
    spare: &mut Spare,
    level: u8,
    upper: &[Span],
    lower: &[Span],
) -> Result<Vec<Span>, Kind>
    requires low { level < MAX_LEVEL }
    requires upper { IsStrip (S.knows squares.old) (S.content squares.old) level upper.now }
    requires lower { IsStrip (S.knows squares.old) (S.content squares.old) level lower.now }
    requires upper_within { AreWithin level upper.now }
    requires lower_within { AreWithin level lower.now }
    requires upper_rises { Rise upper.now }
    requires lower_rises { Rise lower.now }
    ensures strip { IfOk result
        (λ r. IsStrip (S.knows squares.new) (S.content squares.new) (level + 1) r.items) }
    ensures rises { IfOk result (λ r. Rise r.items) }
    ensures within { IfOk result (λ r. AreWithin (level + 1) r.items) }
    ensures paired { IfOk result (λ r. IsPaired (S.content squares.old) (S.content squares.new)
        level upper.now lower.now r.items) }
    ensures grows { Grows S.Squares squares.old squares.new result
        (λ P. SomeColumn P (level + 1)
        (quad_at (S.content squares.old) level upper.now lower.now)) }
{
    let blank = squares.empty(level);
    let mut spans = spare.take(spans_of_pair(upper, lower))?;
    let mut column: u64 = 0;
    let mut north = place_at(upper, 0, 0, blank);
    let mut south = place_at(lower, 0, 0, blank);
    let mut first = north.start.min(south.start);
    while first < NEVER {
        // Up to here all is blank.
        let start = first / 2;
        let end = end_of(north, 2 * start).min(end_of(south, 2 * start));
        let joined = join_at(squares, upper, lower, level, blank, start, north, south)?;
        column = (end / 2).max(start + 1);
        spans.push(Span {
            start,
            end: column,
            square: joined.square,
        })?;
        north = pass(upper, joined.north, 2 * column, blank);
        south = pass(lower, joined.south, 2 * column, blank);
        first = north.start.min(south.start);
    }
    Ok(spans)
}

// Gathers the next squares of two strips until the slices are full or no square is left, and returns the places of the strips after the last one.
fn gather<S: Squares>(
    squares: &S,
    level: u8,
    upper: &[Span],
    lower: &[Span],
    walk: Walk,
    spans: &mut [Span],
    quarters: &mut [Quarters],
) -> Walk
    requires low { level < MAX_LEVEL }
    requires upper { IsStrip (S.knows squares.now) (S.content squares.now) level upper.now }
    requires lower { IsStrip (S.knows squares.now) (S.content squares.now) level lower.now }
    requires upper_within { AreWithin level upper.now }
    requires lower_within { AreWithin level lower.now }
    requires upper_rises { Rise upper.now }
    requires lower_rises { Rise lower.now }
    requires walk { IsWalk level upper.now lower.now walk.column walk.north walk.south }
    requires lengths { length quarters.old ≡ length spans.old }
    ensures walk { IsWalk level upper.now lower.now result.column result.north result.south }
    ensures count { result.count ≤ length spans.old }
    ensures pieces { ArePieces (CanJoin (S.knows squares.now) (S.content squares.now))
        (quad_of (S.content squares.now))
        (quad_at (S.content squares.now) level upper.now lower.now) (blank (suc level))
        (2 ^ (MAX_LEVEL - suc level)) walk.column (take result.count spans.new)
        (take result.count quarters.new) result.column }
    ensures over { result.count < length spans.old
        → (NEVER ≤ result.north.start) × (NEVER ≤ result.south.start) }
{
    let blank = squares.empty(level);
    let mut column = walk.column;
    let mut north = walk.north;
    let mut south = walk.south;
    let mut count: usize = 0;
    let mut first = north.start.min(south.start);
    while first < NEVER && count < spans.len() {
        // Up to here all is blank.
        let start = first / 2;
        let end = end_of(north, 2 * start).min(end_of(south, 2 * start));
        let four = quarters_at(squares, upper, lower, level, blank, start, north, south);
        column = (end / 2).max(start + 1);
        quarters[count] = four.quarters;
        spans[count] = Span {
            start,
            end: column,
            square: blank,
        };
        count += 1;
        north = pass(upper, four.north, 2 * column, blank);
        south = pass(lower, four.south, 2 * column, blank);
        first = north.start.min(south.start);
    }
    Walk {
        column,
        north,
        south,
        count,
    }
}

// Puts spans with these squares after others.
fn put(spans: &mut Vec<Span>, pieces: &[Span], squares: &[Id]) -> Result<(), Kind>
    requires { length squares.now ≡ length pieces.now }
    ensures put { OnOk result
        (spans.new.items ≡ spans.old.items ++ with_squares pieces.now squares.now) }
    ensures refusals { IfErr result IsMemory }
{
    for (i, piece) in pieces.iter().enumerate() {
        spans.push(Span {
            square: squares[i],
            ..*piece
        })?;
    }
    Ok(())
}

// The strip of the next level, whose squares are joined many at once, so that the store can look for all of them before it stores the new ones.
#[inline(never)]
fn pair_in_batches<S: Squares>(
    squares: &mut S,
    spare: &mut Spare,
    level: u8,
    upper: &[Span],
    lower: &[Span],
) -> Result<Vec<Span>, Kind>
    requires low { level < MAX_LEVEL }
    requires upper { IsStrip (S.knows squares.old) (S.content squares.old) level upper.now }
    requires lower { IsStrip (S.knows squares.old) (S.content squares.old) level lower.now }
    requires upper_within { AreWithin level upper.now }
    requires lower_within { AreWithin level lower.now }
    requires upper_rises { Rise upper.now }
    requires lower_rises { Rise lower.now }
    ensures strip { IfOk result
        (λ r. IsStrip (S.knows squares.new) (S.content squares.new) (level + 1) r.items) }
    ensures rises { IfOk result (λ r. Rise r.items) }
    ensures within { IfOk result (λ r. AreWithin (level + 1) r.items) }
    ensures paired { IfOk result (λ r. IsPaired (S.content squares.old) (S.content squares.new)
        level upper.now lower.now r.items) }
    ensures grows { Grows S.Squares squares.old squares.new result
        (λ P. SomeColumn P (level + 1)
        (quad_at (S.content squares.old) level upper.now lower.now)) }
{
    let blank = squares.empty(level);
    let mut spans = spare.take(spans_of_pair(upper, lower))?;
    let mut pieces = [Span {
        start: 0,
        end: 0,
        square: blank,
    }; BATCH];
    let mut quarters = [Quarters {
        nw: blank,
        ne: blank,
        sw: blank,
        se: blank,
    }; BATCH];
    let mut joined = [blank; BATCH];
    let north = place_at(upper, 0, 0, blank);
    let south = place_at(lower, 0, 0, blank);
    let mut walk = Walk {
        column: 0,
        north,
        south,
        count: BATCH,
    };
    while walk.count == BATCH {
        walk = gather(
            squares,
            level,
            upper,
            lower,
            walk,
            &mut pieces,
            &mut quarters,
        );
        let count = walk.count;
        let answers = &mut joined[..count];
        squares.join_all(&quarters[..count], answers)?;
        put(&mut spans, &pieces[..count], answers)?;
    }
    Ok(spans)
}

// How many columns there are from the first span to the last one.
fn width(spans: &[Span]) -> u64 {
    match spans.first() {
        Some(span) => covered(spans).saturating_sub(span.start),
        None => 0,
    }
}

// Whether the squares of two strips are joined in batches. Short strips aren't worth it. If most columns have a square, most joins make a new one, and it only
// takes time to look for all of them first, as long as the cache holds the store.
fn pays_in_batches(spare: &Spare, upper: &[Span], lower: &[Span]) -> bool {
    let spans = upper.len() + lower.len();
    let is_dense = spans as u64 >= width(upper).max(width(lower));
    LEAST_BATCH <= spans && !(is_dense && spare.has_few())
}

// The strip of the next level whose squares have two squares of the upper strip above two of the lower.
pub(crate) fn pair<S: Squares>(
    squares: &mut S,
    spare: &mut Spare,
    level: u8,
    upper: &[Span],
    lower: &[Span],
) -> Result<Vec<Span>, Kind>
    requires low { level < MAX_LEVEL }
    requires upper { IsStrip (S.knows squares.old) (S.content squares.old) level upper.now }
    requires lower { IsStrip (S.knows squares.old) (S.content squares.old) level lower.now }
    requires upper_within { AreWithin level upper.now }
    requires lower_within { AreWithin level lower.now }
    requires upper_rises { Rise upper.now }
    requires lower_rises { Rise lower.now }
    ensures strip { IfOk result
        (λ r. IsStrip (S.knows squares.new) (S.content squares.new) (level + 1) r.items) }
    ensures rises { IfOk result (λ r. Rise r.items) }
    ensures within { IfOk result (λ r. AreWithin (level + 1) r.items) }
    ensures paired { IfOk result (λ r. IsPaired (S.content squares.old) (S.content squares.new)
        level upper.now lower.now r.items) }
    ensures grows { Grows S.Squares squares.old squares.new result
        (λ P. SomeColumn P (level + 1)
        (quad_at (S.content squares.old) level upper.now lower.now)) }
{
    if pays_in_batches(spare, upper, lower) {
        pair_in_batches(squares, spare, level, upper, lower)
    } else {
        spare.count_joined(upper.len());
        pair_one_by_one(squares, spare, level, upper, lower)
    }
}

// A square from a column to before `end`, east of the others.
#[inline(always)]
pub(crate) fn extend(spans: &mut Vec<Span>, column: u64, end: u64, square: Id) -> Result<(), Kind>
    requires { column < end }
    ensures columns { OnOk result (AreBefore column spans.old.items
        → IsExtended spans.old.items spans.new.items column end square) }
    ensures refusals { IfErr result IsMemory }
{
    if let Some(last) = spans.last_mut() {
        if last.end == column && last.square == square {
            last.end = end;
            return Ok(());
        }
    }
    spans.push(Span {
        start: column,
        end,
        square,
    })?;
    Ok(())
}
