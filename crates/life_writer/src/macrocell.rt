//! The node lines of a pattern in a list.

ghost use Rattle.std.proofs.Common.{sym};
ghost use Rattle.std.proofs.lemmas.List.{append-nil};
ghost use Rattle.std.specs.Prelude.{◌≡◌, ◌++◌, [], IfOk, IfErr};
ghost use Rattle.life_writer.specs.Words.{Memory, fault_of, node_lines, square_file, canonical_file, IsLeastLineCount, IsTrimmed, universe_in, MayWalkPattern, IsMemory};

use crate::line_sink::LineSink;
use crate::node_walk::walk_pattern;
use crate::orientation::Upright;
use crate::writer::begin_numbers;
use life_base::{Fault, Items, Kind, MAX_LEVEL};
use life_mc::{Line, McFile};
use life_pattern::Pattern;
use life_quad::{IdNumbers, Shared, SharedSquares};
use std::alloc::Global;

/// Node lines in a list.
#[derive(Drop)]
struct LineList {
    lines: Vec<Line>,
}

impl LineSink<()> for LineList {
    ghost ready = { λ _. Unit {0} };

    ghost took = { λ a b lines. b.0.lines.items ≡ a.0.lines.items ++ lines };

    ghost broke = { λ _ _ _. Unit {0} };

    ghost refuses = { λ _ kind. kind ≡ Memory };

    ghost begins = { λ a. sym (append-nil a.0.lines.items) };

    ghost stops = { λ _ _ _ _ _ _. tt };

    fn take(&mut self, _device: &mut (), line: &Line) -> Result<(), Kind> {
        self.lines.push(*line)?;
        Ok(())
    }
}

/// The macrocell file of a pattern, with one node line for each of its squares, of which none has a number yet.
fn numbered<S: SharedSquares>(
    alloc: Global,
    squares: &S,
    pattern: &Pattern,
    numbers: IdNumbers,
) -> Result<McFile, Kind>
    requires root { MayWalkPattern (S.knows squares.now) (S.content squares.now) pattern.now }
    requires none { numbers.ids ≡ [] }
    ensures file { IfOk result (λ file. file ≡ square_file pattern.now.rule
        pattern.now.generation (S.content squares.now pattern.now.root)) }
    ensures kind { IfErr result IsMemory }
{
    let mut list = LineList {
        lines: Vec::new(alloc),
    };
    walk_pattern(squares, &Upright, pattern, numbers, &mut list, &mut ())?;
    Ok(McFile {
        rule: pattern.rule.copy(alloc)?,
        generation: pattern.generation,
        lines: Items::from_vec(list.lines),
    })
}

/// The canonical macrocell file of a pattern: one node line for each nonblank square of the root from level 3 up under a B/S rule,
/// and from level 1 up under a name. No macrocell file of the pattern has fewer, files with leaf lines under a name aside.
///
/// # Errors
///
/// `Memory`, and nothing else.
pub fn number(alloc: Global, store: &Shared, pattern: &Pattern) -> Result<McFile, Fault>
    requires { IsTrimmed store.now pattern.now }
    ensures file { IfOk result
        (λ file. file ≡ canonical_file MAX_LEVEL (universe_in store.now pattern.now)) }
    ensures least { IfOk result
        (λ file. IsLeastLineCount MAX_LEVEL (universe_in store.now pattern.now) (node_lines file)) }
    ensures memory { IfErr result (λ fault. fault ≡ fault_of Memory) }
{
    let numbers = begin_numbers(alloc, store, pattern)?;
    Ok(numbered(alloc, store, pattern, numbers)?)
}
