//! Where a text has a byte.

ghost use Rattle.std.specs.Prelude.{◌≡◌, ◌<◌, false, length, IfSome, IfNone};
ghost use Rattle.file_hints.specs.Words.{has_byte, IsCutAt};

use bstr::ByteSlice;

/// The place of the first such byte.
pub(crate) fn place_of(text: &[u8], byte: u8) -> Option<usize>
    ensures some { IfSome result (IsCutAt byte text.now) }
    ensures inside { IfSome result (λ at. at < length text.now) }
    ensures none { IfNone result (has_byte byte text.now ≡ false) }
{
    text.find_byte(byte)
}
