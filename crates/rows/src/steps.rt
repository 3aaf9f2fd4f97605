//! A step on the squares of a store, as a row writes it: a word, and its numbers or runs.

use crate::answer::Answer;
use crate::row::numbers_of;
use life_base::{split_word, trimmed_start};

/// A step that makes a square.
#[derive(Clone, Copy)]
pub(crate) enum Make {
    Empty,
    Cell,
    Small,
    Quarter,
    Leaf,
    /// The plane with runs, which are added one by one.
    Rows,
    /// The same, by a slice of runs.
    Slice,
    /// A square of other squares.
    Change(Change),
}

/// A step that makes a square of squares of the list.
#[derive(Clone, Copy)]
pub(crate) enum Change {
    Join,
    Put,
    Grow,
    Trim,
}

/// What a step asks of a square of the list.
#[derive(Clone, Copy)]
pub(crate) enum Question {
    Level,
    State,
    SmallCells,
    LeafCells,
    Parts,
    Blank,
    LeafPopulation,
    /// What is asked of a square of level 1 or more.
    Measure(Measure),
}

/// What a step asks of a square of level 1 or more.
#[derive(Clone, Copy)]
pub(crate) enum Measure {
    Divide,
    Cells,
    Population,
    Bounds,
}

/// What a step does.
#[derive(Clone, Copy)]
pub(crate) enum Verb {
    Make(Make),
    Ask(Question),
    /// Finds a square of level 2 by its cells.
    Find,
    /// Puts an answer into a memory of neighbourhoods.
    Remember,
    /// Gives a builder runs and drops it.
    Build,
}

/// The first word of each step with what it does, and how many numbers come after it. After 9 come runs.
const VERBS: [(&[u8], Verb, usize); 25] = [
    (b"empty", Verb::Make(Make::Empty), 1),
    (b"cell", Verb::Make(Make::Cell), 1),
    (b"small", Verb::Make(Make::Small), 1),
    (b"quarter", Verb::Make(Make::Quarter), 1),
    (b"leaf", Verb::Make(Make::Leaf), 1),
    (b"join", Verb::Make(Make::Change(Change::Join)), 4),
    (b"put", Verb::Make(Make::Change(Change::Put)), 5),
    (b"grow", Verb::Make(Make::Change(Change::Grow)), 1),
    (b"trim", Verb::Make(Make::Change(Change::Trim)), 2),
    (b"rows", Verb::Make(Make::Rows), RUNS),
    (b"slice", Verb::Make(Make::Slice), RUNS),
    (b"level", Verb::Ask(Question::Level), 1),
    (b"state", Verb::Ask(Question::State), 1),
    (b"small_cells", Verb::Ask(Question::SmallCells), 1),
    (b"leaf_cells", Verb::Ask(Question::LeafCells), 1),
    (b"parts", Verb::Ask(Question::Parts), 1),
    (b"divide", Verb::Ask(Question::Measure(Measure::Divide)), 1),
    (b"blank", Verb::Ask(Question::Blank), 1),
    (b"leaf_population", Verb::Ask(Question::LeafPopulation), 1),
    (b"cells", Verb::Ask(Question::Measure(Measure::Cells)), 2),
    (
        b"population",
        Verb::Ask(Question::Measure(Measure::Population)),
        1,
    ),
    (b"bounds", Verb::Ask(Question::Measure(Measure::Bounds)), 1),
    (b"find_small", Verb::Find, 1),
    (b"memory", Verb::Remember, 0),
    (b"unfinished", Verb::Build, RUNS),
];

/// In place of a count of numbers: the rest of the step are runs.
const RUNS: usize = 9;

/// A step: what it does, its numbers, and the text after its word. The numbers after the last, and those of runs, are zero.
#[derive(Clone, Copy)]
pub(crate) struct Step<'a> {
    pub(crate) verb: Verb,
    pub(crate) numbers: [i64; 5],
    pub(crate) runs: &'a [u8],
    /// Whether the store is to refuse the step, so that the row goes on after that.
    pub(crate) is_refused: bool,
}

/// The step that a text writes. The store is to refuse it if `refused` comes before it.
pub(crate) fn step_of<'a>(out: &mut Answer, text: &'a [u8]) -> Option<Step<'a>> {
    let (first, others) = split_word(text);
    let is_refused = first == b"refused".as_slice();
    let (word, others) = if is_refused {
        split_word(others)
    } else {
        (first, others)
    };
    let runs = trimmed_start(others);
    for &(name, verb, count) in &VERBS {
        if name == word {
            let numbers = if count == RUNS {
                [0; 5]
            } else {
                numbers_of(out, runs, count)
            };
            return Some(Step {
                verb,
                numbers,
                runs,
                is_refused,
            });
        }
    }
    None
}
