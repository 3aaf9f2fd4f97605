//! The lines of a file of either format, put into a store as they come.

ghost use Rattle.std.specs.Prelude.{◌≡◌, ◌↔◌, ◌⊎◌, ◌++◌, ◌∷◌, [], ◌<◌, ◌≤◌, ℤ, Some, IsTrue, false, ℕ, List, IfOk, IfErr, OnOk, max, length, All};
ghost use Rattle.life_reader.specs.Words.{Full, NoHeader, Prefix, depth, tree_cell, macrocell_cell, root_level, Macrocell, IsValidMacrocell, AcceptsMacrocell, squares_of, broken_rule, Nodes, stored_squares, Grows, IsShortageKind, LacksHeader, HasRuns, BreaksRle, IsSomeRle, IsFilling, IsBuilt, Stores, StoresIn, Breaks, Says, is_macrocell, least_level, IsOpenIn, IsKnown, content, IsPatternOf, AreSquaresIn, ForMacrocell, HasGrown, HoldsFile, IsEnd, SomeAtEnd, SomeOfLines, SomeOfMacrocell, SomeRoot, IsOpen, IsOver, IsReadyToTake, StandsFor, consumed_lines, Universe, CanJoin, HasJoined, IsReadyFor, KeepsLines, quads_of, SomeOf, MOST_WAITING};

use crate::line_squares::{grow_to, line_quarters, names_first};
use life_base::{Kind, MAX_LEVEL, Rule, Run, begins_with};
use life_mc::{Line, McLines};
use life_pattern::{Pattern, least_level};
use life_quad::{Id, Quarters, Shared, Squares, trim};
use life_rle::RleLines;
use life_strip::Builder;
use std::alloc::Global;

/// How many node lines wait at most until their squares are joined.
const MOST_WAITING: usize = 32;

/// Node lines wait in a store of so many nodes and more. A smaller one fits into the processor's cache, so that no join waits for memory.
const LEAST_NODES: usize = 1 << 16;

/// No line waits in a store whose limit leaves fewer squares than this: so `Full` is reported at the line that needs one square too many.
const LEAST_LEFT: u64 = 256;

/// What the lines so far are, and the squares that were made of them.
#[derive(Drop)]
pub(crate) enum Progress {
    /// No line came.
    Undecided,
    /// What comes before the items of an RLE file, its runs, and a vector for those of one line.
    Rle(RleLines, Builder, Vec<Run>),
    /// What comes before the node lines of a macrocell file, the squares of these lines, and the quarters of those of the last lines, which wait.
    Macrocell(McLines, Vec<Id>, Vec<Quarters>),
}

/// Takes a line of an RLE file. The vector lends memory for its runs.
fn take_rle_line<S: Squares>(
    squares: &mut S,
    lines: &mut RleLines,
    builder: &mut Builder,
    runs: &mut Vec<Run>,
    line: &[u8],
) -> Result<(), Kind>
    requires begun { lines.old.refused ≡ false }
    requires built { IsBuilt (S.knows squares.old) (S.content squares.old)
        (HasRuns MAX_LEVEL lines.old.lines) builder.old }
    ensures lines { OnOk result
        (lines.new ≡ record { lines = lines.old.lines ++ line.now ∷ []; refused = false }) }
    ensures prefix { OnOk result (Prefix (IsSomeRle MAX_LEVEL) lines.new.lines) }
    ensures built { OnOk result (IsBuilt (S.knows squares.new) (S.content squares.new)
        (HasRuns MAX_LEVEL lines.new.lines) builder.new) }
    ensures fault { IfErr result (λ kind. IsShortageKind (S.stored squares.new) (S.most squares.new)
        kind ⊎ BreaksRle MAX_LEVEL lines.old.lines line.now kind) }
    ensures stores { StoresIn S.Squares squares.old squares.new result
        (λ P. SomeOfLines MAX_LEVEL P (lines.old.lines ++ line.now ∷ [])) }
{
    runs.clear();
    lines.line_into(line, runs)?;
    builder.add_runs(squares, runs)
}

/// Joins the squares of the lines that wait, and puts their Ids after those of the lines before them.
#[inline(never)]
fn join_waiting<S: Squares>(
    squares: &mut S,
    ids: &mut Vec<Id>,
    waiting: &mut Vec<Quarters>,
) -> Result<(), Kind>
    requires can_join { All (CanJoin (S.knows squares.old) (S.content squares.old))
        waiting.old.items }
    requires few { length waiting.old.items ≤ MOST_WAITING }
    ensures joined { OnOk result (HasJoined S.Squares squares.old squares.new ids.old.items
        waiting.old.items ids.new.items) }
    ensures none { OnOk result (waiting.new.items ≡ []) }
    ensures grows { Grows S.Squares squares.old squares.new result
        (λ P. SomeOf P (quads_of (S.content squares.old) waiting.old.items)) }
{
    if waiting.is_empty() {
        return Ok(());
    }
    let blank = squares.empty(1);
    let mut joined = [blank; MOST_WAITING];
    let answers = &mut joined[..waiting.len()];
    squares.join_all(waiting.as_slice(), answers)?;
    ids.extend_from_slice(answers)?;
    waiting.clear();
    Ok(())
}

/// Joins the squares of the lines that wait, where so many wait, or where a node line names one of them.
fn make_ready<S: Squares>(
    squares: &mut S,
    ids: &mut Vec<Id>,
    waiting: &mut Vec<Quarters>,
    most: usize,
    line: Line,
) -> Result<(), Kind>
    requires can_join { All (CanJoin (S.knows squares.old) (S.content squares.old))
        waiting.old.items }
    requires few { length waiting.old.items ≤ MOST_WAITING }
    ensures ready { OnOk result (IsReadyFor S.Squares most line squares.old squares.new
        ids.old.items waiting.old.items ids.new.items waiting.new.items) }
    ensures grows { Grows S.Squares squares.old squares.new result
        (λ P. SomeOf P (quads_of (S.content squares.old) waiting.old.items)) }
{
    if waiting.is_empty() {
        return Ok(());
    }
    if waiting.len() < most && names_first(ids.len() as u64, line) {
        return Ok(());
    }
    join_waiting(squares, ids, waiting)
}

/// Takes a line of a macrocell file. Where so many lines may wait, and that isn't 0, the line does.
fn take_macrocell_line<S: Squares>(
    squares: &mut S,
    lines: &mut McLines,
    ids: &mut Vec<Id>,
    waiting: &mut Vec<Quarters>,
    most: usize,
    line: &[u8],
) -> Result<(), Kind>
    requires squares { KeepsLines (S.knows squares.old) (S.content squares.old) lines.old.lines
        ids.old.items waiting.old.items }
    requires begun { lines.old.refused ≡ false }
    requires most { most ≤ MOST_WAITING }
    ensures lines { OnOk result
        (lines.new ≡ record { lines = lines.old.lines ++ line.now ∷ []; refused = false }) }
    ensures prefix { OnOk result (Prefix (AcceptsMacrocell MAX_LEVEL) lines.new.lines) }
    ensures squares { OnOk result (KeepsLines (S.knows squares.new) (S.content squares.new)
        lines.new.lines ids.new.items waiting.new.items) }
    ensures fault { IfErr result (λ kind. IsShortageKind (S.stored squares.new) (S.most squares.new)
        kind ⊎ (broken_rule MAX_LEVEL lines.old.lines line.now ≡ Some kind)) }
    ensures stores { StoresIn S.Squares squares.old squares.new result
        (λ P. SomeOfLines MAX_LEVEL P (lines.old.lines ++ line.now ∷ [])) }
{
    let Some(square) = lines.line(line)? else {
        return Ok(());
    };
    make_ready(squares, ids, waiting, most, square)?;
    let quarters = line_quarters(squares, ids, square)?;
    if most == 0 {
        let Quarters { nw, ne, sw, se } = quarters;
        let id = squares.join(nw, ne, sw, se)?;
        ids.push(id)?;
    } else {
        waiting.push(quarters)?;
    }
    Ok(())
}

/// How many lines may wait.
fn most_waiting(store: &Shared) -> usize
    ensures { result ≤ MOST_WAITING }
{
    if store.nodes() < LEAST_NODES || store.limit().saturating_sub(store.len()) < LEAST_LEFT {
        return 0;
    }
    MOST_WAITING
}

/// The pattern of a root, which is trimmed to the least level of a node line.
fn trimmed_pattern<S: Squares>(
    squares: &mut S,
    rule: Rule,
    generation: u64,
    root: Id,
) -> Result<Pattern, Kind>
    requires known { S.knows squares.old root }
    requires high { 1 ≤ depth (S.content squares.old root) }
    ensures pattern { (universe : Universe) → universe.rule ≡ rule
        → universe.generation ≡ generation
        → ((x y : ℤ) → tree_cell (S.content squares.old root) x y ≡ universe.cell x y)
        → IfOk result
        (IsPatternOf MAX_LEVEL (S.knows squares.new) (S.content squares.new) universe) }
    ensures grown { OnOk result
        (HasGrown S.Squares squares.new (S.content squares.old root) (least_level rule)) }
    ensures grows { Grows S.Squares squares.old squares.new result
        (λ P. (universe : Universe) → universe.rule ≡ rule
        → ((x y : ℤ) → tree_cell (S.content squares.old root) x y ≡ universe.cell x y)
        → SomeRoot MAX_LEVEL P universe (depth (S.content squares.old root))) }
{
    let least = least_level(&rule);
    let root = grow_to(squares, root, least)?;
    let root = trim(squares, root, least)?;
    Ok(Pattern {
        rule,
        generation,
        root,
    })
}

/// The square of the last node line, or a blank one.
fn last_square<S: Squares>(squares: &S, ids: &[Id]) -> Id
    requires { (file : Macrocell) × IsValidMacrocell MAX_LEVEL file
        × AreSquaresIn S.Squares squares.now file.lines ids.now }
    ensures known { S.knows squares.now result }
    ensures high { 1 ≤ depth (S.content squares.now result) }
    ensures level { ForMacrocell S.Squares squares.now ids.now
        (λ file. depth (S.content squares.now result) ≡ max 1 (root_level file.lines)) }
    ensures cells { ForMacrocell S.Squares squares.now ids.now
        (λ file. (x y : ℤ) → tree_cell (S.content squares.now result) x y
        ≡ macrocell_cell file x y) }
{
    match ids.last() {
        Some(id) => *id,
        None => squares.empty(1),
    }
}

impl Progress {
    /// The format of a file whose first line this is.
    fn begun(alloc: Global, line: &[u8]) -> Progress
        ensures ready { IsReadyToTake line.now result }
        ensures lines { consumed_lines result ≡ [] }
        ensures stands { (store : Nodes) → StandsFor (IsKnown store) (content store) result }
    {
        if begins_with(line, b"[M2]") {
            Progress::Macrocell(McLines::new(alloc), Vec::new(alloc), Vec::new(alloc))
        } else {
            Progress::Rle(RleLines::new(alloc), Builder::new(alloc), Vec::new(alloc))
        }
    }

    /// Begins the file of the format of a line that is the first.
    fn begin(&mut self, alloc: Global, line: &[u8])
        requires { IsOpen self.old }
        ensures ready { IsReadyToTake line.now self.new }
        ensures lines { consumed_lines self.new ≡ consumed_lines self.old }
        ensures stands { (store : Nodes) → StandsFor (IsKnown store) (content store) self.old
            → StandsFor (IsKnown store) (content store) self.new }
    {
        if matches!(self, Progress::Undecided) {
            *self = Progress::begun(alloc, line);
        }
    }

    /// Whether `!` has ended the pattern, so that all further lines are free.
    pub(crate) fn is_over(&self) -> bool
        requires { IsOpen self.now }
        ensures { IsTrue result ↔ IsOver self.now }
    {
        match self {
            Progress::Rle(lines, _, _) => lines.over(),
            _ => false,
        }
    }

    /// Takes the next line, and puts its runs or its square into the store.
    pub(crate) fn take_line(
        &mut self,
        alloc: Global,
        store: &mut Shared,
        line: &[u8],
    ) -> Result<(), Kind>
        requires { IsOpenIn store.old self.old }
        ensures lines { OnOk result
            (consumed_lines self.new ≡ consumed_lines self.old ++ line.now ∷ []) }
        ensures progress { OnOk result (IsOpenIn store.new self.new) }
        ensures fault { IfErr result (λ kind. IsShortageKind (stored_squares store.new)
            store.new.limit kind ⊎ Breaks MAX_LEVEL (consumed_lines self.old) line.now kind) }
        ensures stores { Stores Full store.old store.new result
            (λ P. SomeOfLines MAX_LEVEL P (consumed_lines self.old ++ line.now ∷ [])) }
    {
        self.begin(alloc, line);
        match self {
            Progress::Undecided => Ok(()),
            Progress::Rle(lines, builder, runs) => {
                take_rle_line(store, lines, builder, runs, line)
            }
            Progress::Macrocell(lines, ids, waiting) => {
                let most = most_waiting(store);
                take_macrocell_line(store, lines, ids, waiting, most, line)
            }
        }
    }

    /// The pattern of the lines.
    pub(crate) fn end(self, store: &mut Shared) -> Result<Pattern, Kind>
        requires { IsOpenIn store.old self }
        ensures pattern { IfOk result (λ pattern. (universe : Universe)
            × Says MAX_LEVEL (consumed_lines self) universe
            × IsPatternOf MAX_LEVEL (IsKnown store.new) (content store.new) universe pattern) }
        ensures all { OnOk result ((bytes : List ℕ) (ended : ℕ) → IsEnd bytes ended self
            → HoldsFile bytes (stored_squares store.new)) }
        ensures fault { IfErr result (λ kind. IsShortageKind (stored_squares store.new)
            store.new.limit kind ⊎ ((kind ≡ NoHeader) × LacksHeader MAX_LEVEL (consumed_lines self)
            × (is_macrocell (consumed_lines self) ≡ false))) }
        ensures stores { Stores Full store.old store.new result
            (λ P. SomeAtEnd MAX_LEVEL P (consumed_lines self)
            ⊎ SomeOfMacrocell MAX_LEVEL P (consumed_lines self)) }
    {
        match self {
            Progress::Undecided => Err(Kind::NoHeader),
            Progress::Rle(lines, builder, _) => {
                let (rule, generation) = lines.end()?;
                let root = builder.finish_about_middle(store)?;
                trimmed_pattern(store, rule, generation, root)
            }
            Progress::Macrocell(lines, mut ids, mut waiting) => {
                let (rule, generation) = lines.end()?;
                join_waiting(store, &mut ids, &mut waiting)?;
                let root = last_square(store, &ids);
                trimmed_pattern(store, rule, generation, root)
            }
        }
    }
}
