//! Calls on files in stores: in a new one, several on one, and at each limit of one.

ghost use Rattle.std.specs.Prelude.{◌≤◌, ◌^◌};

use crate::answer::{Answer, Show};
use crate::calls::{Call, call_named};
use crate::files;
use crate::row::{first_of, halves, number_of, parts_of};
use life_quad::{Seed, Shared};
use std::alloc::Global;

/// More squares than a store may hold in these tests.
pub(crate) const SPACE: u64 = 1 << 31;

/// A new store, for more squares than it may hold in these tests.
pub(crate) fn new_store(alloc: Global) -> Shared {
    Shared::seeded(alloc, Seed::fixed(), SPACE)
}

/// Adds the answer of a part: a call that is lent a store, `|` and an input.
fn take_part(alloc: Global, out: &mut Answer, store: &mut Shared, part: &[u8]) {
    let (name, input) = halves(out, part);
    match call_named(name) {
        Some((count, Call::Lent(call))) => {
            let texts = parts_of(out, input, count);
            files::answer(alloc, out, store, call, texts);
        }
        _ => out.is_bad = true,
    }
}

/// Most parts of a row.
const PARTS: u8 = 100;

/// Adds the answers of parts, which have `&` between each two.
fn take_parts(alloc: Global, out: &mut Answer, store: &mut Shared, parts: &[u8]) {
    let mut rest = parts;
    for _ in 0..PARTS {
        let (part, others) = first_of(rest, b"&");
        take_part(alloc, out, store, part);
        out.text(" & ");
        if others.is_empty() {
            return;
        }
        rest = others;
    }
    out.is_bad = true;
}

/// Adds whether a store is full.
fn show_full(out: &mut Answer, store: &Shared) {
    out.text(if store.len() == store.limit() {
        "full"
    } else {
        "not full"
    });
}

/// Calls on one store of a limit, so many times: their answers, and whether the store is full then.
fn in_store(alloc: Global, out: &mut Answer, texts: [&[u8]; 3]) {
    let [limit, times, parts] = texts;
    let limit = number_of(out, limit).min(SPACE);
    let mut store = Shared::seeded(alloc, Seed::fixed(), limit);
    for _ in 0..number_of(out, times) {
        take_parts(alloc, out, &mut store, parts);
    }
    show_full(out, &store);
}

/// The answer of a part in a store of a limit, and how many squares the store holds then.
fn answer_at(alloc: Global, part: &[u8], limit: u64) -> (Answer, u64)
    requires { limit ≤ 2 ^ 31 }
{
    let mut store = Shared::seeded(alloc, Seed::fixed(), limit);
    let mut out = Answer::with_capacity(alloc, 0);
    take_part(alloc, &mut out, &mut store, part);
    (out, store.len())
}

/// Calls on a store that the first of them fills: its answer, whether the store is full then, and the answers of the others.
fn in_full_store(alloc: Global, out: &mut Answer, first: &[u8], others: &[u8]) {
    let (_, space) = answer_at(alloc, first, SPACE);
    let mut store = Shared::seeded(alloc, Seed::fixed(), space.min(SPACE));
    take_part(alloc, out, &mut store, first);
    out.text(" & ");
    show_full(out, &store);
    out.text(" & ");
    take_parts(alloc, out, &mut store, others);
}

/// The greatest limit that is tried.
const MOST: u64 = 4096;

/// The first limit of a store that suffices for a part. Below it each store is full and the part refused, from it on the part has this answer.
fn first_limit(alloc: Global, out: &mut Answer, part: &[u8], wanted: &str) -> u64
    ensures { result ≤ 2 ^ 31 }
{
    let mut first = SPACE;
    for limit in 0..=MOST {
        let (answer, len) = answer_at(alloc, part, limit);
        let is_wanted = answer.line() == wanted;
        if is_wanted && first == SPACE {
            first = limit;
        }
        let is_refused = answer.line() == "0 Full" && len == limit && first == SPACE;
        if !is_wanted && !is_refused {
            out.is_bad = true;
        }
    }
    if first == SPACE {
        out.is_bad = true;
    }
    first
}

/// A call of other calls, which are lent stores.
#[derive(Clone, Copy)]
pub(crate) enum Lending {
    /// Calls on one store of a limit, so many times.
    InStore,
    /// Calls on a store that the first of them fills.
    InFullStore,
    /// The first limit that suffices for a part, and its answer.
    LeastLimit,
    /// Whether the first limit that suffices for a part is above 0, and its answer.
    TakesSpace,
    /// A part in the store that just suffices for it, whether that is full then, the part again, another one, which no longer fits, and the first again.
    Serves,
}

/// Adds what a call on the first limit that suffices for a part answers.
fn at_first_limit(alloc: Global, out: &mut Answer, call: Lending, part: &[u8], other: &[u8]) {
    let (answer, _) = answer_at(alloc, part, SPACE);
    let limit = first_limit(alloc, out, part, answer.line());
    match call {
        Lending::LeastLimit => limit.show(out),
        Lending::TakesSpace => (limit > 0).show(out),
        _ => {
            let mut store = Shared::seeded(alloc, Seed::fixed(), limit);
            take_part(alloc, out, &mut store, part);
            out.text(" & ");
            show_full(out, &store);
            for part in [part, other, part] {
                out.text(" & ");
                take_part(alloc, out, &mut store, part);
            }
            return;
        }
    }
    out.text(" ");
    out.text(answer.line());
}

/// Adds what a call of other calls answers.
pub(crate) fn answer(alloc: Global, out: &mut Answer, call: Lending, texts: [&[u8]; 3]) {
    let (part, others) = first_of(texts[0], b"&");
    match call {
        Lending::InStore => in_store(alloc, out, texts),
        Lending::InFullStore => in_full_store(alloc, out, part, others),
        _ => at_first_limit(alloc, out, call, part, others),
    }
}
