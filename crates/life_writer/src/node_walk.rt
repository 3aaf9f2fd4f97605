//! The walk that numbers the squares of a pattern and gives their lines.

ghost use Rattle.std.specs.Prelude.{◌≡◌, ◌==◌, ◌&&◌, ◌⊎◌, ◌≤◌, [], true, false, map, All, OnOk, OnErr, IfErr, MatchOption};
ghost use Rattle.life_writer.specs.Words.{depth, is_blank_tree, is_life, least_level, is_small, is_in, number_of_quarter, listed_squares, lines_for, MayWalk, MayWalkPattern, Walked, RefusesWalk, seen_in};

use crate::line_sink::LineSink;
use crate::orientation::Orientation;
use life_base::{Kind, Rule};
use life_mc::Line;
use life_pattern::Pattern;
use life_quad::{Id, IdNumbers, Quarters, SharedSquares, Squares};

/// Whether a square of a level is written as a leaf.
fn is_leaf(rule: &Rule, level: u8) -> bool
    ensures { result ≡ (is_life rule.now && level == 3) }
{
    match rule {
        Rule::Life(_) => level == 3,
        Rule::Named(_) => false,
    }
}

/// The number that represents a square of a level in a node line, where nothing has to be written for it: a cell's state, 0 for a blank
/// square, else the number that it has.
fn known_number<S: SharedSquares, O: Orientation>(
    squares: &S,
    orientation: &O,
    level: u8,
    numbers: &IdNumbers,
    id: Id,
) -> Option<u64>
    requires id { S.knows squares.now id }
    requires level { level ≡ depth (O.seen orientation.now (S.content squares.now id)) }
    requires numbers { All (S.knows squares.now) numbers.now.ids }
    ensures number { MatchOption result
        ((1 ≤ depth (O.seen orientation.now (S.content squares.now id)))
        × (is_blank_tree (O.seen orientation.now (S.content squares.now id)) ≡ false))
        (λ number. number ≡ number_of_quarter
        (map (seen_in (O.seen orientation.now) (S.content squares.now)) numbers.now.ids)
        (O.seen orientation.now (S.content squares.now id))) }
    ensures there { MatchOption result
        (is_in (map (seen_in (O.seen orientation.now) (S.content squares.now)) numbers.now.ids)
        (O.seen orientation.now (S.content squares.now id)) ≡ false)
        (λ _. (is_small 1 (O.seen orientation.now (S.content squares.now id)) ≡ true)
        ⊎ (is_in (map (seen_in (O.seen orientation.now) (S.content squares.now)) numbers.now.ids)
        (O.seen orientation.now (S.content squares.now id)) ≡ true)) }
{
    if let Some(state) = orientation.state(squares, id) {
        return Some(u64::from(state));
    }
    if orientation.is_blank_at(squares, level, id) {
        return Some(0);
    }
    numbers.get(id)
}

/// Gives a sink the lines of the squares of the walk over a square of a level that have no number yet, as they are seen, each after those of its
/// quarters, and gives them numbers. It answers the number that represents the square in a node line. Besides what the sink refuses, memory is refused only
/// if there was no capacity for the number of a square of the store.
#[cycle(walk)]
#[inline(always)]
fn walk_square<S: SharedSquares, O: Orientation, D, L: LineSink<D>>(
    squares: &S,
    orientation: &O,
    rule: &Rule,
    level: u8,
    id: Id,
    numbers: &mut IdNumbers,
    lines: &mut L,
    device: &mut D,
) -> Result<u64, Kind>
    requires square { MayWalk (S.knows squares.now)
        (seen_in (O.seen orientation.now) (S.content squares.now)) rule.now level id
        numbers.old.ids }
    requires ready { L.ready (lines.old, device.old) }
    ensures walked { Walked (S.knows squares.now)
        (seen_in (O.seen orientation.now) (S.content squares.now)) L.took L.broke rule.now id
        (lines.old, device.old) (lines.new, device.new) numbers.old.ids numbers.new.ids result }
    ensures places { OnOk result (numbers.new.space ≡ numbers.old.space) }
    ensures ready { OnOk result (L.ready (lines.new, device.new)) }
    ensures refused { IfErr result (RefusesWalk (L.refuses (lines.new, device.new))
        (S.knows squares.now) (seen_in (O.seen orientation.now) (S.content squares.now)) rule.now
        numbers.old.space) }
{
    if let Some(number) = known_number(squares, orientation, level, numbers, id) {
        return Ok(number);
    }
    walk_new_square(
        squares,
        orientation,
        rule,
        level,
        id,
        numbers,
        lines,
        device,
    )
}

/// The same of a square that needs a line and has no number yet.
#[cycle(walk)]
#[inline(never)]
fn walk_new_square<S: SharedSquares, O: Orientation, D, L: LineSink<D>>(
    squares: &S,
    orientation: &O,
    rule: &Rule,
    level: u8,
    id: Id,
    numbers: &mut IdNumbers,
    lines: &mut L,
    device: &mut D,
) -> Result<u64, Kind>
    requires square { MayWalk (S.knows squares.now)
        (seen_in (O.seen orientation.now) (S.content squares.now)) rule.now level id
        numbers.old.ids }
    requires more { (1 ≤ depth (O.seen orientation.now (S.content squares.now id)))
        × (is_blank_tree (O.seen orientation.now (S.content squares.now id)) ≡ false) }
    requires new { is_in
        (map (seen_in (O.seen orientation.now) (S.content squares.now)) numbers.old.ids)
        (O.seen orientation.now (S.content squares.now id)) ≡ false }
    requires ready { L.ready (lines.old, device.old) }
    ensures walked { Walked (S.knows squares.now)
        (seen_in (O.seen orientation.now) (S.content squares.now)) L.took L.broke rule.now id
        (lines.old, device.old) (lines.new, device.new) numbers.old.ids numbers.new.ids result }
    ensures places { OnOk result (numbers.new.space ≡ numbers.old.space) }
    ensures ready { OnOk result (L.ready (lines.new, device.new)) }
    ensures refused { IfErr result (RefusesWalk (L.refuses (lines.new, device.new))
        (S.knows squares.now) (seen_in (O.seen orientation.now) (S.content squares.now)) rule.now
        numbers.old.space) }
{
    if is_leaf(rule, level) {
        let number = numbers.push(id)?;
        lines.take_leaf(device, squares, orientation, id)?;
        return Ok(number);
    }
    let Quarters { nw, ne, sw, se } = orientation.quarters(squares, id);
    let nw = walk_square(
        squares,
        orientation,
        rule,
        level - 1,
        nw,
        numbers,
        lines,
        device,
    )?;
    let ne = walk_square(
        squares,
        orientation,
        rule,
        level - 1,
        ne,
        numbers,
        lines,
        device,
    )?;
    let sw = walk_square(
        squares,
        orientation,
        rule,
        level - 1,
        sw,
        numbers,
        lines,
        device,
    )?;
    let se = walk_square(
        squares,
        orientation,
        rule,
        level - 1,
        se,
        numbers,
        lines,
        device,
    )?;
    let number = numbers.push(id)?;
    lines.take(
        device,
        &Line::Quad {
            level,
            nw,
            ne,
            sw,
            se,
        },
    )?;
    Ok(number)
}

/// Gives a sink the lines of the squares of a pattern, as they are seen, in their order. No square has a number yet. Besides what the sink refuses, memory is
/// refused only if there is no capacity for the number of a square of the store.
pub(crate) fn walk_pattern<S: SharedSquares, O: Orientation, D, L: LineSink<D>>(
    squares: &S,
    orientation: &O,
    pattern: &Pattern,
    mut numbers: IdNumbers,
    lines: &mut L,
    device: &mut D,
) -> Result<(), Kind>
    requires root { MayWalkPattern (S.knows squares.now)
        (seen_in (O.seen orientation.now) (S.content squares.now)) pattern.now }
    requires none { numbers.ids ≡ [] }
    requires ready { L.ready (lines.old, device.old) }
    ensures took { OnOk result (L.took (lines.old, device.old) (lines.new, device.new)
        (lines_for pattern.now.rule
        (listed_squares (O.seen orientation.now (S.content squares.now pattern.now.root))
        (least_level pattern.now.rule)))) }
    ensures broke { OnErr result (L.broke (lines.old, device.old) (lines.new, device.new)
        (lines_for pattern.now.rule
        (listed_squares (O.seen orientation.now (S.content squares.now pattern.now.root))
        (least_level pattern.now.rule)))) }
    ensures ready { OnOk result (L.ready (lines.new, device.new)) }
    ensures refused { IfErr result (RefusesWalk (L.refuses (lines.new, device.new))
        (S.knows squares.now) (seen_in (O.seen orientation.now) (S.content squares.now))
        pattern.now.rule numbers.space) }
{
    let level = orientation.level(squares, pattern.root);
    walk_square(
        squares,
        orientation,
        &pattern.rule,
        level,
        pattern.root,
        &mut numbers,
        lines,
        device,
    )?;
    Ok(())
}
