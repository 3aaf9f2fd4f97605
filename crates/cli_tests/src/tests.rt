//! Worked files, with the answers that the formats give. More of them are given to the built program, by `tests/program/tasks.py`.

mod devices;
mod duplicates;
mod failures;
mod keys;
mod plans;
mod streams;
mod tasks;

use life_cli::plans::{Form, Target, Task};

/// A glider: the rows about the middle of a leaf.
const GLIDER: &[u8] = b"[M2]\n#R B3/S23\n#C a glider\n$$..*$...*$.***$$$$\n";

/// A glider whose bounding box begins at (0, 0).
const MOVED_GLIDER: &[u8] = b"[M2] (canonical 1)\n#R B3/S23\n$$$$.....*$......*$....***$$\n";

/// The image of a glider whose moved text is least.
const TURNED_GLIDER: &[u8] = b"[M2] (canonical 1)\n#R B3/S23\n$$$$....*$....*.*$....**$$\n";

/// A glider to the south and east of the origin, and the five lines on it.
const EAST_GLIDER: &[u8] = b"x = 3, y = 3, rule = B3/S23\nbo$2bo$3o!\n";

const EAST_GLIDER_SHOWN: &[u8] = b"rule B3/S23\ngeneration 0\npopulation 5\nbox 0 0 3 3\nnodes 1\n";

/// The same, with its period, and where it is sought up to 3.
const EAST_GLIDER_WITH_PERIOD: &[u8] =
    b"rule B3/S23\ngeneration 0\npopulation 5\nbox 0 0 3 3\nnodes 1\nperiod 4 spaceship 1 1\n";

const EAST_GLIDER_WITHOUT_PERIOD: &[u8] =
    b"rule B3/S23\ngeneration 0\npopulation 5\nbox 0 0 3 3\nnodes 1\nperiod none up to 3\n";

/// Two cells, in both formats. Equal squares share a line.
const TWINS: &[u8] = b"[M2]\n....*$\n....*$\n4 0 0 1 2\n";

const TWINS_IN_RLE: &[u8] = b"#CXRLE Pos=-4,0\nx = 9, y = 1, rule = 23/3\no7bo!\n";

/// The two cells in another generation.
const LATER_TWINS: &[u8] = b"#CXRLE Pos=-4,0 Gen=7\nx = 9, y = 1, rule = 23/3\no7bo!\n";

const TWINS_TEXT: &[u8] = b"[M2] (canonical 1)\n#R B3/S23\n....*$$$$$$$$\n4 0 0 1 1\n";

const TWINS_SHOWN: &[u8] = b"rule B3/S23\ngeneration 0\npopulation 2\nbox -4 0 9 1\nnodes 2\n";

const TWINS_RUNS: &[u8] = b"#CXRLE Pos=-4,0\nx = 9, y = 1, rule = B3/S23\no7bo!\n";

/// Three cells in a row.
const LINE: &[u8] = b"x = 3, y = 1, rule = B3/S23\n3o!\n";

/// What it is: an oscillator.
const LINE_WITH_PERIOD: &[u8] =
    b"rule B3/S23\ngeneration 0\npopulation 3\nbox 0 0 3 1\nnodes 1\nperiod 2 oscillator\n";

/// The next generation of `LINE`.
const NEXT_LINE: &[u8] = b"[M2] (canonical 1)\n#R B3/S23\n#G 1\n$$$.....*$.....*$.....*$$$\n";

/// `LINE`, and the generation 2 of it: it turns about its middle cell.
const LINE_TEXT: &[u8] = b"[M2] (canonical 1)\n#R B3/S23\n$$$$....***$$$$\n";

const SECOND_LINE: &[u8] = b"[M2] (canonical 1)\n#R B3/S23\n#G 2\n$$$$....***$$$$\n";

/// A state spreads to cells that have one cell of it beside them.
const SPREAD: &[u8] =
    b"@RULE Spread\n@TABLE\nn_states:3\nneighborhood:vonNeumann\nsymmetries:rotate4\nvar a={1,2}\n0,a,0,0,0,a\n";

/// A cell of state 2, and the text of the next generation by the table `SPREAD`.
const SEED: &[u8] = b"x = 1, y = 1, rule = Spread\nB!\n";

const SEED_TEXT: &[u8] = b"[M2] (canonical 1)\n#R Spread\n1 0 0 0 2\n";

const SPREAD_TEXT: &[u8] =
    b"[M2] (canonical 1)\n#R Spread\n#G 1\n1 0 0 2 0\n1 0 2 0 0\n1 2 2 2 0\n2 0 1 2 3\n";

const WIRES: &[u8] = b"#CXRLE Pos=-1,-1 Gen=7\nx = 2, y = 1, rule = WireWorld\nApA!\n";

/// What is written of two files that are compared.
const SAME: &[u8] = b"same\n";

const DIFFERENT: &[u8] = b"different\n";

/// Jobs with their files, the status that they end with, and what they write.
const TASKS: [(Task, &[u8], Option<&[u8]>, u8, &[u8]); 21] = [
    (Task::Show, TWINS, None, 0, TWINS_SHOWN),
    (Task::Canon(Form::Placed), TWINS_IN_RLE, None, 0, TWINS_TEXT),
    (Task::Canon(Form::Moved), GLIDER, None, 0, MOVED_GLIDER),
    (Task::Canon(Form::Turned), GLIDER, None, 0, TURNED_GLIDER),
    (Task::Show, EAST_GLIDER, None, 0, EAST_GLIDER_SHOWN),
    (
        Task::ShowPeriod(4),
        EAST_GLIDER,
        None,
        0,
        EAST_GLIDER_WITH_PERIOD,
    ),
    (
        Task::ShowPeriod(3),
        EAST_GLIDER,
        None,
        0,
        EAST_GLIDER_WITHOUT_PERIOD,
    ),
    (Task::ShowPeriod(u64::MAX), LINE, None, 0, LINE_WITH_PERIOD),
    (Task::Convert(Target::Rle), TWINS, None, 0, TWINS_RUNS),
    (Task::Convert(Target::Mc), TWINS_IN_RLE, None, 0, TWINS_TEXT),
    (Task::Step, LINE, None, 0, NEXT_LINE),
    (Task::Same(Form::Placed), TWINS, Some(TWINS_IN_RLE), 0, SAME),
    (Task::Same(Form::Placed), TWINS, Some(WIRES), 1, DIFFERENT),
    (Task::Same(Form::Moved), GLIDER, Some(EAST_GLIDER), 0, SAME),
    (Task::Same(Form::Turned), LINE, Some(TWINS), 1, DIFFERENT),
    (Task::StepTable, SEED, Some(SPREAD), 0, SPREAD_TEXT),
    (Task::Later(0), LINE, None, 0, LINE_TEXT),
    (Task::Later(1), LINE, None, 0, NEXT_LINE),
    (Task::Later(2), LINE, None, 0, SECOND_LINE),
    (Task::LaterTable(0), SEED, Some(SPREAD), 0, SEED_TEXT),
    (Task::LaterTable(1), SEED, Some(SPREAD), 0, SPREAD_TEXT),
];
