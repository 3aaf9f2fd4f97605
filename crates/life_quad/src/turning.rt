//! Squares, turned about their middle.
ghost use Rattle.std.specs.Prelude.{◌≡◌, ◌<◌, ◌≤◌, ◌^◌, ◌*◌, ◌/◌, ◌%◌, ℕ, Some, IfOk};
ghost use Rattle.life_quad.specs.Words.{quad, depth, value_of_id, AreQuarters, IdValue, SomePart, two, four};
ghost use Rattle.life_quad.specs.Grows.{Grows};
ghost use Rattle.life_quad.specs.Turning.{turned_tree, id_of_four, digit_in, side_of, turned_half, AreImages};

use crate::id_map::IdMap;
use crate::moves::{Quarters, divide, is_blank_at};
use crate::{Id, SharedSquares, Squares};
use life_base::Kind;
use std::alloc::Global;

/// One of the eight turns and reflections of the plane about its middle, which is between the columns -1 and 0 and the rows -1 and 0. It says where
/// the cell at a place of the image comes from: columns and rows are exchanged or not, and then each of the two is counted from the other side or not.
#[derive(Clone, Copy)]
pub struct Turn {
    /// Whether columns and rows are exchanged.
    pub exchange: bool,
    /// Whether columns are counted from the other side.
    pub columns: bool,
    /// Whether rows are.
    pub rows: bool,
}

/// Where the quarter was that a turn brings to this place: whether in the east, and whether in the south.
fn place_before(turn: Turn, east: bool, south: bool) -> (bool, bool)
    ensures side { result.0 ≡ side_of turn east south }
    ensures end { result.1 ≡ turned_half turn east south }
{
    let (side, end) = if turn.exchange {
        (south, east)
    } else {
        (east, south)
    };
    (turn.columns != side, turn.rows != end)
}

/// The quarter that a turn brings to this place.
fn placed(turn: Turn, four: Quarters, east: bool, south: bool) -> Id
    ensures { result ≡ id_of_four (side_of turn east south) (turned_half turn east south) four }
{
    match place_before(turn, east, south) {
        (false, false) => four.nw,
        (true, false) => four.ne,
        (false, true) => four.sw,
        (true, true) => four.se,
    }
}

/// The squares of level 1 of the states 0 and 1, turned: the four bits from 4 d on are the cells of the image of the one with the cells d, as
/// `Squares::small_quarter` takes them.
fn turned_quarters(turn: Turn) -> u64
    ensures { (d : ℕ) → d < 16 → two (result / 2 ^ (4 * d) % 16) ≡ turned_tree turn (two d) }
{
    if turn.exchange {
        if turn.columns {
            if turn.rows {
                0xF7D5_B391_E6C4_A280
            } else {
                0xFBEA_7362_D9C8_5140
            }
        } else {
            if turn.rows {
                0xFD75_EC64_B931_A820
            } else {
                0xFEBA_DC98_7632_5410
            }
        }
    } else {
        if turn.columns {
            if turn.rows {
                0xF7B3_D591_E6A2_C480
            } else {
                0xFDEC_7564_B9A8_3120
            }
        } else {
            if turn.rows {
                0xFB73_EA62_D951_C840
            } else {
                0xFEDC_BA98_7654_3210
            }
        }
    }
}

/// The cells of one quarter of a square of level 2 of the states 0 and 1.
fn quarter_cells(cells: u16, east: bool, south: bool) -> u16
    ensures { result ≡ digit_in east south cells }
{
    match (east, south) {
        (false, false) => cells / 4096,
        (true, false) => cells / 256 % 16,
        (false, true) => cells / 16 % 16,
        (true, true) => cells % 16,
    }
}

/// The cells of the quarter that a turn brings to this place, turned as `quarters` says.
fn turned_quarter(quarters: u64, turn: Turn, cells: u16, east: bool, south: bool) -> u16
    requires { (d : ℕ) → d < 16 → two (quarters / 2 ^ (4 * d) % 16) ≡ turned_tree turn (two d) }
    ensures low { result < 16 }
    ensures square { two result ≡ turned_tree turn
        (two (digit_in (side_of turn east south) (turned_half turn east south) cells)) }
{
    let (side, end) = place_before(turn, east, south);
    let shift = 4 * quarter_cells(cells, side, end);
    ((quarters >> shift) % 16) as u16
}

/// The cells of the image of a square of level 2 of the states 0 and 1 about its middle, as `Squares::small` takes them.
pub fn turned_cells(turn: Turn, cells: u16) -> u16
    ensures { four result ≡ turned_tree turn (four cells) }
{
    let quarters = turned_quarters(turn);
    let nw = turned_quarter(quarters, turn, cells, false, false);
    let ne = turned_quarter(quarters, turn, cells, true, false);
    let sw = turned_quarter(quarters, turn, cells, false, true);
    let se = turned_quarter(quarters, turn, cells, true, true);
    nw * 4096 + ne * 256 + sw * 16 + se
}

/// Of a square of level 1 or more, the squares whose images are the quarters of its image about its middle, each of the level below. No square is made.
pub fn divide_turned<S: Squares>(squares: &S, turn: Turn, id: Id) -> Quarters
    requires known { S.knows squares.now id }
    requires deep { 1 ≤ depth (S.content squares.now id) }
    ensures square { turned_tree turn (S.content squares.now id)
        ≡ quad (turned_tree turn (S.content squares.now result.nw))
        (turned_tree turn (S.content squares.now result.ne))
        (turned_tree turn (S.content squares.now result.sw))
        (turned_tree turn (S.content squares.now result.se)) }
    ensures quarters { AreQuarters (S.knows squares.now)
        (λ (q : IdValue). turned_tree turn (S.content squares.now q))
        (turned_tree turn (S.content squares.now id)) result }
{
    let parts = divide(squares, id);
    let nw = placed(turn, parts, false, false);
    let ne = placed(turn, parts, true, false);
    let sw = placed(turn, parts, false, true);
    let se = placed(turn, parts, true, true);
    Quarters { nw, ne, sw, se }
}

/// The image of a square of a level about its middle, in another store. `known` has the images of the squares that were visited.
fn turn_square<S: Squares, T: Squares>(
    from: &S,
    to: &mut T,
    turn: Turn,
    level: u8,
    id: Id,
    known: &mut IdMap<Option<Id>>,
) -> Result<Id, Kind>
    requires level { depth (S.content from.now id) ≡ level }
    requires known { S.knows from.now id }
    requires right { AreImages (T.knows to.old) (T.content to.old) (S.content from.now) turn
        (value_of_id known.old) }
    ensures known { IfOk result (T.knows to.new) }
    ensures level { IfOk result (λ image. depth (T.content to.new image) ≡ level) }
    ensures square { IfOk result
        (λ image. T.content to.new image ≡ turned_tree turn (S.content from.now id)) }
    ensures right { AreImages (T.knows to.new) (T.content to.new) (S.content from.now) turn
        (value_of_id known.new) }
    ensures grows { Grows T.Squares to.old to.new result
        (λ P. SomePart P (turned_tree turn (S.content from.now id))) }
{
    if let Some(cells) = from.small_cells(id) {
        return to.small(turned_cells(turn, cells));
    }
    if let Some(state) = from.state(id) {
        return Ok(to.cell(state));
    }
    if is_blank_at(from, level, id) {
        return Ok(to.empty(level));
    }
    if let Some(image) = known.get(id) {
        return Ok(image);
    }
    let parts = divide(from, id);
    let below = level - 1;
    let nw = turn_square(
        from,
        to,
        turn,
        below,
        placed(turn, parts, false, false),
        known,
    )?;
    let ne = turn_square(
        from,
        to,
        turn,
        below,
        placed(turn, parts, true, false),
        known,
    )?;
    let sw = turn_square(
        from,
        to,
        turn,
        below,
        placed(turn, parts, false, true),
        known,
    )?;
    let se = turn_square(
        from,
        to,
        turn,
        below,
        placed(turn, parts, true, true),
        known,
    )?;
    let image = to.join(nw, ne, sw, se)?;
    known.set(id, Some(image))?;
    Ok(image)
}

/// The image of a square about its middle, in another store. Each shared square is visited once.
///
/// # Errors
///
/// `Full` where the store holds its limit and lacks the image or a part of it, and `Memory`. After either each Id names the square that it named,
/// and nothing stored is gone. Whatever it returns, the store gets no squares except the image and its parts.
pub fn turned<S: SharedSquares, T: Squares>(
    alloc: Global,
    from: &S,
    to: &mut T,
    turn: Turn,
    id: Id,
) -> Result<Id, Kind>
    requires { S.knows from.now id }
    ensures known { IfOk result (T.knows to.new) }
    ensures level { IfOk result
        (λ image. depth (T.content to.new image) ≡ depth (S.content from.now id)) }
    ensures square { IfOk result
        (λ image. T.content to.new image ≡ turned_tree turn (S.content from.now id)) }
    ensures grows { Grows T.Squares to.old to.new result
        (λ P. SomePart P (turned_tree turn (S.content from.now id))) }
{
    let mut known = IdMap::new(alloc, None);
    turn_square(from, to, turn, from.level(id), id, &mut known)
}
