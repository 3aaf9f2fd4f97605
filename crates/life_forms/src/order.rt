//! The order of texts.

ghost use Rattle.std.specs.Prelude.{◌≡◌, true, false};
ghost use Rattle.life_forms.specs.Words.{IsUpTo};

/// Whether the first text is no greater than the second, byte by byte.
pub(crate) fn is_up_to(first: &[u8], second: &[u8]) -> bool
    ensures first { result ≡ true → IsUpTo first.now second.now }
    ensures second { result ≡ false → IsUpTo second.now first.now }
{
    !second.cmp(first).is_lt()
}
