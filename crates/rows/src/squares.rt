//! Steps on the squares of a store: tests of `life_quad` and `life_strip`.

ghost use Rattle.std.specs.Prelude.{◌≡◌, ◌≤◌, ◌<◌, ◌^◌, All, IfOk, IfSome};
ghost use Rattle.life_base.specs.Tree.{depth};
ghost use Rattle.life_quad.specs.Grows.{KeepsStore};

use crate::answer::{Answer, Show, show_list};
use crate::fill::{fill_at_once, fill_plane, put, unfinished};
use crate::row::{number_of, run_of, up_to};
use crate::steps::{Change, Make, Measure, Question, Step, Verb, step_of};
use crate::stores::SPACE;
use life_base::{Bounds, Cell, Kind, MAX_LEVEL, Run, lines};
use life_quad::{
    Id, NeighbourhoodMemory, Plain, Quarters, Seed, Shared, Squares, bounds, cells, divide, grow,
    is_blank, is_blank_at, leaf_population, population, trim,
};
use std::alloc::Global;

/// A store, and what only one that shares can say.
trait Store: Squares {
    /// Adds how many squares it holds, and how many it may hold.
    fn show_nodes(&self, out: &mut Answer);

    /// Adds how many live cells a square has.
    fn show_population(&self, alloc: Global, out: &mut Answer, id: Id)
        requires known { Self.knows self.now id }
        requires high { 1 ≤ depth (Self.content self.now id) };

    /// Adds the bounding box of a square's live cells: the first and the last column, and the first and the last row.
    fn show_bounds(&self, alloc: Global, out: &mut Answer, id: Id)
        requires known { Self.knows self.now id }
        requires high { 1 ≤ depth (Self.content self.now id) };
}

impl Show for Bounds {
    fn show(&self, out: &mut Answer) {
        let Bounds {
            left,
            top,
            right,
            bottom,
        } = *self;
        show_list(out, "", ",", &[left, top, right, bottom]);
    }
}

impl Store for Shared {
    fn show_nodes(&self, out: &mut Answer) {
        show_list(out, ", ", " of ", &[self.len(), self.limit()]);
        out.text(" nodes");
    }

    fn show_population(&self, alloc: Global, out: &mut Answer, id: Id) {
        match population(alloc, self, id) {
            Ok(count) => out.number(count),
            Err(kind) => out.refused(kind),
        }
    }

    fn show_bounds(&self, alloc: Global, out: &mut Answer, id: Id) {
        bounds(alloc, self, id).show(out);
    }
}

impl Store for Plain {
    fn show_nodes(&self, out: &mut Answer) {
        let _ = out;
    }

    fn show_population(&self, alloc: Global, out: &mut Answer, id: Id) {
        let _ = (alloc, id);
        out.is_bad = true;
    }

    fn show_bounds(&self, alloc: Global, out: &mut Answer, id: Id) {
        let _ = (alloc, id);
        out.is_bad = true;
    }
}

/// Most steps of a row. Memory for their squares is taken before the first step: so the steps themselves take none but in the store.
const STEPS: usize = 256;

// ---- steps that make a square

/// The square at a place of the list.
fn square_at<S: Squares>(out: &mut Answer, squares: &S, ids: &[Id], place: i64) -> Option<Id>
    requires { All (S.knows squares.now) ids.now }
    ensures { IfSome result (S.knows squares.now) }
{
    let _ = squares;
    match ids.get(up_to(out, 1 << 16, place) as usize) {
        Some(id) => Some(*id),
        None => {
            out.is_bad = true;
            None
        }
    }
}

/// The square of four quarters of one level, which are squares of the list.
fn joined<S: Squares>(
    out: &mut Answer,
    squares: &mut S,
    ids: &[Id],
    places: [i64; 4],
) -> Result<Id, Kind>
    requires { All (S.knows squares.old) ids.now }
    ensures known { IfOk result (S.knows squares.new) }
    ensures keeps { KeepsStore S.Squares squares.old squares.new }
{
    let [nw, ne, sw, se] = places;
    let (Some(nw), Some(ne), Some(sw), Some(se)) = (
        square_at(out, squares, ids, nw),
        square_at(out, squares, ids, ne),
        square_at(out, squares, ids, sw),
        square_at(out, squares, ids, se),
    ) else {
        return Err(Kind::OutOfPlane);
    };
    let level = squares.level(nw);
    if level == MAX_LEVEL
        || squares.level(ne) != level
        || squares.level(sw) != level
        || squares.level(se) != level
    {
        out.is_bad = true;
        return Err(Kind::OutOfPlane);
    }
    squares.join(nw, ne, sw, se)
}

/// The least square of this level or more that has all live cells of a square.
fn least<S: Squares>(out: &mut Answer, squares: &mut S, id: Id, level: i64) -> Result<Id, Kind>
    requires { S.knows squares.old id }
    ensures known { IfOk result (S.knows squares.new) }
    ensures keeps { KeepsStore S.Squares squares.old squares.new }
{
    match u8::try_from(level) {
        Ok(level) if level > 0 => trim(squares, id, level),
        _ => {
            out.is_bad = true;
            Err(Kind::OutOfPlane)
        }
    }
}

/// The square that a step makes of squares of the list.
fn changed<S: Squares>(
    out: &mut Answer,
    squares: &mut S,
    ids: &[Id],
    change: Change,
    numbers: [i64; 5],
) -> Result<Id, Kind>
    requires { All (S.knows squares.old) ids.now }
    ensures known { IfOk result (S.knows squares.new) }
    ensures keeps { KeepsStore S.Squares squares.old squares.new }
{
    let [first, second, third, fourth, fifth] = numbers;
    let Some(id) = square_at(out, squares, ids, first) else {
        return Err(Kind::OutOfPlane);
    };
    let level = squares.level(id);
    match change {
        Change::Join => joined(out, squares, ids, [first, second, third, fourth]),
        Change::Put => {
            let Run { x, y, len, state } = run_of(out, [second, third, fourth, fifth]);
            put(squares, id, x, y, len, state)
        }
        Change::Grow if level > 0 && level < MAX_LEVEL => grow(squares, id),
        Change::Trim => least(out, squares, id, second),
        _ => {
            out.is_bad = true;
            Err(Kind::OutOfPlane)
        }
    }
}

/// The square that a step makes.
fn made<S: Squares>(
    alloc: Global,
    out: &mut Answer,
    squares: &mut S,
    ids: &[Id],
    make: Make,
    step: &Step,
) -> Result<Id, Kind>
    requires { All (S.knows squares.old) ids.now }
    ensures known { IfOk result (S.knows squares.new) }
    ensures keeps { KeepsStore S.Squares squares.old squares.new }
{
    let number = step.numbers[0];
    match make {
        Make::Empty => Ok(squares.empty(up_to(out, 62, number) as u8)),
        Make::Cell => Ok(squares.cell(up_to(out, 255, number) as u8)),
        Make::Small => squares.small(up_to(out, 65535, number) as u16),
        Make::Quarter => squares.small_quarter(up_to(out, 15, number) as u16),
        Make::Leaf => squares.leaf(up_to(out, 1 << 63, number)),
        Make::Rows => fill_plane(alloc, out, squares, step.runs),
        Make::Slice => fill_at_once(alloc, out, squares, step.runs),
        Make::Change(change) => changed(out, squares, ids, change, step.numbers),
    }
}

// ---- steps that ask for something of squares

/// Adds the first place of a square in the list, or `other`.
fn show_place(out: &mut Answer, ids: &[Id], id: Id) {
    let mut place = 0u64;
    for known in ids {
        if *known == id {
            return place.show(out);
        }
        place = place.saturating_add(1);
    }
    out.text("other");
}

/// Adds the places of four quarters.
fn show_places(out: &mut Answer, ids: &[Id], quarters: [Id; 4]) {
    let mut mark = "";
    for quarter in quarters {
        out.text(mark);
        show_place(out, ids, quarter);
        mark = ",";
    }
}

impl Show for Cell {
    /// The column, the row and the state.
    fn show(&self, out: &mut Answer) {
        show_list(out, "", ",", &[self.x, self.y]);
        show_list(out, ",", "", &[self.state]);
    }
}

/// Adds what a step asks of a square of level 1 or more.
fn show_measure<S: Store>(
    alloc: Global,
    out: &mut Answer,
    squares: &S,
    ids: &[Id],
    measure: Measure,
    id: Id,
    limit: i64,
)
    requires known { S.knows squares.now id }
    requires high { 1 ≤ depth (S.content squares.now id) }
{
    match measure {
        Measure::Divide => {
            let Quarters { nw, ne, sw, se } = divide(squares, id);
            show_places(out, ids, [nw, ne, sw, se]);
        }
        Measure::Cells => match cells(alloc, squares, id, up_to(out, 1 << 63, limit)) {
            Ok(list) => {
                out.text("[");
                show_list(out, " ", " ", &list);
                out.text(" ]");
            }
            Err(kind) => out.refused(kind),
        },
        Measure::Population => squares.show_population(alloc, out, id),
        Measure::Bounds => squares.show_bounds(alloc, out, id),
    }
}

/// Adds what a step asks of a square of the list.
fn ask<S: Store>(
    alloc: Global,
    out: &mut Answer,
    squares: &S,
    ids: &[Id],
    question: Question,
    numbers: [i64; 5],
)
    requires { All (S.knows squares.now) ids.now }
{
    let Some(id) = square_at(out, squares, ids, numbers[0]) else {
        return;
    };
    let level = squares.level(id);
    match question {
        Question::Level => level.show(out),
        Question::State => squares.state(id).show(out),
        Question::SmallCells => match squares.small_cells(id) {
            Some(cells) => u64::from(cells).show(out),
            None => out.text("none"),
        },
        Question::LeafCells => squares.leaf_cells(id).show(out),
        Question::Parts => match squares.parts(id) {
            Some(quarters) => show_places(out, ids, quarters),
            None => out.text("none"),
        },
        Question::Blank => {
            let are_blank = [is_blank(squares, id), is_blank_at(squares, level, id)];
            show_list(out, "", ",", &are_blank);
        }
        Question::LeafPopulation => out.number(leaf_population(squares, level, id)),
        Question::Measure(measure) if level > 0 => {
            show_measure(alloc, out, squares, ids, measure, id, numbers[1]);
        }
        Question::Measure(_) => out.is_bad = true,
    }
}

/// Adds whether a memory knows nothing of nine squares, then the answer that was put for them, and still nothing of nine that differ in the last.
fn remembered(alloc: Global, out: &mut Answer, ids: &[Id]) {
    let &[a, b, c, d, answer] = ids else {
        out.is_bad = true;
        return;
    };
    let mut memory = NeighbourhoodMemory::new(alloc, Seed::fixed());
    let around = [a, b, c, d, a, b, c, d, a];
    let is_new = memory.get(&around).is_none();
    memory.put(&around, answer);
    let is_known = memory.get(&around) == Some(answer);
    let is_other_new = memory.get(&[a, b, c, d, a, b, c, d, b]).is_none();
    show_list(out, "", ",", &[is_new, is_known, is_other_new]);
}

/// Takes a step, and adds its answer: the first place in the list of a square that it makes, or what it asks for.
fn take<S: Store>(alloc: Global, out: &mut Answer, squares: &mut S, ids: &mut Vec<Id>, text: &[u8])
    requires { All (S.knows squares.old) ids.old.items }
    ensures { All (S.knows squares.new) ids.new.items }
{
    let Some(step) = step_of(out, text) else {
        out.is_bad = true;
        return;
    };
    match step.verb {
        Verb::Make(make) => match made(alloc, out, squares, ids, make, &step) {
            Ok(id) => {
                if ids.push(id).is_err() {
                    out.is_cut = true;
                }
                show_place(out, ids, id);
            }
            Err(kind) => {
                out.is_over = !step.is_refused;
                out.refused(kind);
            }
        },
        Verb::Ask(question) => ask(alloc, out, squares, ids, question, step.numbers),
        Verb::Find => match squares.find_small(up_to(out, 65535, step.numbers[0]) as u16) {
            Some(id) => show_place(out, ids, id),
            None => out.text("none"),
        },
        Verb::Remember => remembered(alloc, out, ids),
        Verb::Build => match unfinished(alloc, out, squares, step.runs) {
            Ok(()) => out.text("taken"),
            Err(kind) => {
                out.is_over = true;
                out.refused(kind);
            }
        },
    }
}

/// Adds the answers of the steps up to the first that is refused and the kind of its refusal.
fn take_row<S: Store>(
    alloc: Global,
    out: &mut Answer,
    squares: &mut S,
    ids: &mut Vec<Id>,
    steps: &[u8],
) {
    ids.clear();
    out.is_over = false;
    let mut mark = "";
    for (_, step) in lines(steps) {
        if !out.is_over {
            out.text(mark);
            mark = " ";
            take(alloc, out, squares, ids, step);
        }
    }
    squares.show_nodes(out);
}

/// Takes the steps of a row on one store, so many times.
fn take_times<S: Store + Drop>(
    alloc: Global,
    out: &mut Answer,
    store: S,
    times: u64,
    steps: &[u8],
) {
    let mut squares = store;
    let Ok(mut ids) = Vec::with_capacity(alloc, STEPS) else {
        out.is_cut = true;
        return;
    };
    let mut mark = "";
    for _ in 0..times {
        out.text(mark);
        mark = " / ";
        take_row(alloc, out, &mut squares, &mut ids, steps);
    }
}

/// A kind of store.
#[derive(Clone, Copy)]
pub(crate) enum Kept {
    /// One that shares squares, with a fixed seed.
    Shared,
    /// One that shares squares.
    New,
    /// One that doesn't share.
    Plain,
}

/// Adds the answers of the steps of a row, which are taken on a store of a limit, so many times.
pub(crate) fn answer(alloc: Global, out: &mut Answer, kept: Kept, texts: [&[u8]; 3]) {
    let [limit, times, steps] = texts;
    let limit = number_of(out, limit).min(SPACE);
    let times = number_of(out, times);
    match kept {
        Kept::Shared => {
            let store = Shared::seeded(alloc, Seed::fixed(), limit);
            take_times(alloc, out, store, times, steps);
        }
        Kept::New => take_times(alloc, out, Shared::new(alloc, limit), times, steps),
        Kept::Plain => take_times(alloc, out, Plain::new(alloc, limit), times, steps),
    }
}
