//! Macrocell files, read whole.

ghost use Rattle.std.specs.Prelude.{◌≡◌, ◌⊎◌, ◌++◌, ◌∷◌, [], OnOk, IfOk, IfErr, Some, false, true};
ghost use Rattle.life_mc.specs.Words.{OrMemory, lines_of, Memory, IsPlainMacrocell, IsUnbrokenMacrocell, RefusesMacrocell, broken_rule, squares_of, is_macrocell_kind};

use crate::file::McFile;
use crate::line::Line;
use crate::lines::McLines;
use life_base::{Fault, Items, Kind, MAX_LEVEL, lines};
use std::alloc::Global;

/// Takes the next line, and adds its square.
fn take_line(reader: &mut McLines, squares: &mut Vec<Line>, line: &[u8]) -> Result<(), Kind>
    requires { reader.old.refused ≡ false }
    ensures lines { OnOk result
        (reader.new ≡ record { lines = reader.old.lines ++ line.now ∷ []; refused = false }) }
    ensures unbroken { OnOk result (IsUnbrokenMacrocell MAX_LEVEL reader.new.lines) }
    ensures squares { OnOk result (squares.old.items ≡ squares_of reader.old.lines
        → squares.new.items ≡ squares_of reader.new.lines) }
    ensures fault { IfErr result
        (λ kind. (kind ≡ Memory) ⊎ (broken_rule MAX_LEVEL reader.old.lines line.now ≡ Some kind)) }
{
    if let Some(square) = reader.line(line)? {
        squares.push(square)?;
    }
    Ok(())
}

/// What a macrocell file says.
///
/// # Errors
///
/// The place is the first line after which the bytes can't be continued to a file, 1 where there are no lines, and the kind is that of
/// the first rule which that line breaks. Where a growth of memory is refused the fault is `Memory`, which names no line.
pub fn read_mc(alloc: Global, bytes: &[u8]) -> Result<McFile, Fault>
    ensures ok { IfOk result (λ file. IsPlainMacrocell MAX_LEVEL (lines_of bytes.now) file) }
    ensures err { IfErr result
        (λ fault. OrMemory fault (RefusesMacrocell MAX_LEVEL (lines_of bytes.now) fault)) }
    ensures kinds { IfErr result (λ fault. OrMemory fault (is_macrocell_kind fault.kind ≡ true)) }
{
    let mut reader = McLines::new(alloc);
    let mut squares = Vec::new(alloc);
    for (number, line) in lines(bytes) {
        if let Err(kind) = take_line(&mut reader, &mut squares, line) {
            return Err(Fault::at(number, kind));
        }
    }
    match reader.end() {
        Ok((rule, generation)) => Ok(McFile {
            rule,
            generation,
            lines: Items::from_vec(squares),
        }),
        Err(kind) => Err(Fault::at(1, kind)),
    }
}
