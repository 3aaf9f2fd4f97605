//! RLE files, written.

ghost use Rattle.std.specs.Prelude.{◌≡◌, ◌++◌, ◌∷◌, [], true, codes, OnOk, IfOk, IfErr};
ghost use Rattle.life_rle.specs.Words.{signed_decimal, fault_of, are_sorted_cells, generation_text, position_text, header_text, rle_text, box_side, IsInPlane, IsMemory};

use crate::bounds::bounds_of;
use crate::pen::write_cells;
use crate::position::Position;
use crate::wrapping::ItemLines;
use life_base::{Bounds, Cell, Fault, Kind, MAX_LEVEL, Rule, append, append_number};
use std::alloc::Global;

/// Adds a generation at the end, if it isn't 0.
fn append_generation(out: &mut Vec<u8>, generation: u64) -> Result<(), Kind>
    ensures ok { OnOk result (out.new.items ≡ out.old.items ++ generation_text generation) }
    ensures memory { IfErr result IsMemory }
{
    if generation == 0 {
        return Ok(());
    }
    append(out, b" Gen=")?;
    append_number(out, generation)
}

/// Adds a column and a row at the end.
fn append_corner(out: &mut Vec<u8>, position: Position) -> Result<(), Kind>
    ensures ok { OnOk result (out.new.items ≡ out.old.items ++ (signed_decimal position.x
        ++ (codes "," ++ signed_decimal position.y))) }
    ensures memory { IfErr result IsMemory }
{
    append_number(out, position.x)?;
    append(out, b",")?;
    append_number(out, position.y)
}

/// Adds the position line at the end, with its line feed.
fn append_position(out: &mut Vec<u8>, position: Position) -> Result<(), Kind>
    ensures ok { OnOk result (out.new.items ≡ out.old.items ++ (position_text position.x
        position.y position.generation ++ codes "\n")) }
    ensures memory { IfErr result IsMemory }
{
    append(out, b"#CXRLE Pos=")?;
    append_corner(out, position)?;
    append_generation(out, position.generation)?;
    append(out, b"\n")
}

/// Adds the header line at the end, with its line feed.
fn append_header(out: &mut Vec<u8>, width: u64, height: u64, rule: &Rule) -> Result<(), Kind>
    ensures ok { OnOk result
        (out.new.items ≡ out.old.items ++ (header_text width height rule.now ++ codes "\n")) }
    ensures memory { IfErr result IsMemory }
{
    append(out, b"x = ")?;
    append_number(out, width)?;
    append(out, b", y = ")?;
    append_number(out, height)?;
    append(out, b", rule = ")?;
    rule.write(out)?;
    append(out, b"\n")
}

/// How many columns a box has.
fn width_of(bounds: Bounds) -> u64
    requires { IsInPlane bounds }
    ensures { result ≡ box_side bounds.left bounds.right }
{
    (bounds.right - bounds.left) as u64 + 1
}

/// How many rows a box has.
fn height_of(bounds: Bounds) -> u64
    requires { IsInPlane bounds }
    ensures { result ≡ box_side bounds.top bounds.bottom }
{
    (bounds.bottom - bounds.top) as u64 + 1
}

/// The corner of a box, in a generation.
fn corner_of(bounds: Bounds, generation: u64) -> Position
    ensures { result ≡ record { x = bounds.left; y = bounds.top; generation = generation } }
{
    Position {
        x: bounds.left,
        y: bounds.top,
        generation,
    }
}

/// The text of no cells.
fn blank_text(alloc: Global, rule: &Rule, generation: u64) -> Result<Vec<u8>, Kind>
    ensures text { IfOk result (λ text. text.items ≡ rle_text rule.now generation []) }
    ensures memory { IfErr result IsMemory }
{
    let corner = Position {
        x: 0,
        y: 0,
        generation,
    };
    let mut text = Vec::new(alloc);
    append_position(&mut text, corner)?;
    append_header(&mut text, 0, 0, rule)?;
    ItemLines::behind(text).finish()
}

/// The text of a cell and more cells.
fn cells_text(
    alloc: Global,
    rule: &Rule,
    generation: u64,
    first: &Cell,
    cells: &[Cell],
) -> Result<Vec<u8>, Kind>
    requires { are_sorted_cells MAX_LEVEL rule.now (first.now ∷ cells.now) ≡ true }
    ensures text { IfOk result
        (λ text. text.items ≡ rle_text rule.now generation (first.now ∷ cells.now)) }
    ensures memory { IfErr result IsMemory }
{
    let bounds = bounds_of(first, cells);
    let mut text = Vec::new(alloc);
    append_position(&mut text, corner_of(bounds, generation))?;
    append_header(&mut text, width_of(bounds), height_of(bounds), rule)?;
    write_cells(text, rule, bounds, first, cells)
}

/// The text of a rule, a generation and cells that `sorted_cells` accepts: in extended RLE, with the upper left corner of the cells'
/// bounding box and the generation in a position line, and items on lines of at most 70 bytes.
///
/// # Errors
///
/// `Memory`, at no line, and nothing else.
pub fn write_rle(
    alloc: Global,
    rule: &Rule,
    generation: u64,
    cells: &[Cell],
) -> Result<Vec<u8>, Fault>
    requires { are_sorted_cells MAX_LEVEL rule.now cells.now ≡ true }
    ensures text { IfOk result (λ text. text.items ≡ rle_text rule.now generation cells.now) }
    ensures memory { IfErr result (λ fault. fault ≡ fault_of Kind.Memory) }
{
    let text = match cells {
        [] => blank_text(alloc, rule, generation)?,
        [first, rest @ ..] => cells_text(alloc, rule, generation, first, rest)?,
    };
    Ok(text)
}
