//! A source, read to its end.

ghost use Rattle.std.specs.Prelude.{◌≡◌, ◌⊎◌, ◌≤◌, ◌^◌, IfOk, IfErr, OnOk, OnErr};
ghost use Rattle.life_base.specs.Words.{ReadAll, CameBeyond};

use crate::devices::Source;
use crate::kind::Kind;
use std::alloc::Global;

/// How many bytes are asked of a source at once.
const PIECE: usize = 65536;

/// Reads to the end of the input, or until more than `most` bytes came, which is `InputTooLong`. It keeps at most `most` bytes and
/// one piece of 64 KiB. A failed read is `ReadFault`, refused memory `Memory`.
pub fn read_within<R: Source>(alloc: Global, reader: &mut R, most: u64) -> Result<Vec<u8>, Kind>
    requires working { R.failures reader.old ≡ 0 }
    requires bound { most ≤ 2 ^ 30 }
    ensures ok { IfOk result
        (λ bytes. ReadAll most (R.remaining reader.old) (R.remaining reader.new) bytes.items) }
    ensures works { OnOk result (R.failures reader.new ≡ 0) }
    ensures failed { IfErr result (λ kind. kind ≡ Kind.ReadFault → R.failures reader.new ≡ 1) }
    ensures long { IfErr result (λ kind. kind ≡ Kind.InputTooLong
        → CameBeyond most (R.remaining reader.old) (R.remaining reader.new)) }
    ensures kinds { IfErr result
        (λ kind. (kind ≡ Kind.ReadFault) ⊎ ((kind ≡ Kind.InputTooLong) ⊎ (kind ≡ Kind.Memory))) }
    ensures reported { OnErr result
        (R.failures reader.new ≡ 1 → IfErr result (λ kind. kind ≡ Kind.ReadFault)) }
{
    let mut bytes = Vec::new(alloc);
    let mut piece = [0u8; PIECE];
    loop {
        let count = reader.read(&mut piece)?;
        if count == 0 {
            return Ok(bytes);
        }
        bytes.extend_from_slice(&piece[..count])?;
        if bytes.len() as u64 > most {
            return Err(Kind::InputTooLong);
        }
    }
}
