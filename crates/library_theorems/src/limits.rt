//! What a limit of squares bounds: how many a store counts into which the same files are read by themselves.

ghost use Rattle.std.specs.Prelude.{◌≡◌, ◌⊎◌, ◌<◌, ◌≤◌, ◌^◌, min, IsOk};
ghost use Rattle.library_theorems.specs.Words.{kind_number};

use library_calls::{Compared, Options, Reported, canon, key, same};
use life_base::{Fault, Kind};
use life_pattern::Pattern;
use life_quad::Shared;
use life_reader::read;
use std::alloc::Global;

/// If the canonical text of a file is given, an empty store into which the file is read counts no more different squares than the limit; if `Full` is
/// returned, it counts more. A limit above 2^62 counts as 2^62.
pub fn text_is_within_limit(
    alloc: Global,
    file: &[u8],
    options: Options,
    out: &mut [u8],
    most: u64,
) -> (Reported, Result<Pattern, Fault>, u64)
    requires { most ≤ 2 ^ 62 }
    ensures within { (result.0.status ≡ 0) ⊎ (result.0.status ≡ 64) → IsOk result.1
        → result.2 ≤ min options.limit (2 ^ 62) }
    ensures full { result.0.status ≡ kind_number Kind.Full → IsOk result.1
        → min options.limit (2 ^ 62) < result.2 }
{
    let reported = canon(alloc, file, options, out);
    let mut store = Shared::new(alloc, most);
    let found = read(alloc, &mut store, file);
    (reported, found, store.len())
}

/// The same for the key of a file in any form; and for `Full` in the form with the number 0, the pattern as it lies.
pub fn key_is_within_limit(
    alloc: Global,
    file: &[u8],
    form: u32,
    options: Options,
    out: &mut [u8],
    most: u64,
) -> (Reported, Result<Pattern, Fault>, u64)
    requires { most ≤ 2 ^ 62 }
    ensures within { (result.0.status ≡ 0) ⊎ (result.0.status ≡ 64) → IsOk result.1
        → result.2 ≤ min options.limit (2 ^ 62) }
    ensures full { form ≡ 0 → result.0.status ≡ kind_number Kind.Full → IsOk result.1
        → min options.limit (2 ^ 62) < result.2 }
{
    let reported = key(alloc, file, form, options, out);
    let mut store = Shared::new(alloc, most);
    let found = read(alloc, &mut store, file);
    (reported, found, store.len())
}

/// The same for two files that are compared as they lie, and that are read into one empty store.
pub fn comparison_is_within_limit(
    alloc: Global,
    first: &[u8],
    second: &[u8],
    options: Options,
    most: u64,
) -> (
    Compared,
    Result<Pattern, Fault>,
    Result<Pattern, Fault>,
    u64,
)
    requires { most ≤ 2 ^ 62 }
    ensures within { result.0.status ≡ 0 → IsOk result.1 → IsOk result.2
        → result.3 ≤ min options.limit (2 ^ 62) }
    ensures full { result.0.status ≡ kind_number Kind.Full → IsOk result.1 → IsOk result.2
        → min options.limit (2 ^ 62) < result.3 }
{
    let compared = same(alloc, first, second, options);
    let mut store = Shared::new(alloc, most);
    let one = read(alloc, &mut store, first);
    let other = read(alloc, &mut store, second);
    (compared, one, other, store.len())
}
