//! The answers of earlier calls for the same four squares.
ghost use Rattle.std.specs.Prelude.{◌≡◌, ◌⊎◌, IfSome};
ghost use Rattle.life_slide.specs.Words.{TableGives, IdValue, KeyValue, key_of_block};

use crate::sides::Side;
use crate::table::{Key, Table};
use life_quad::{Id, IdNumbers, Quarters, Seed};
use std::alloc::Global;

/// The least level of squares that are remembered: lower ones are found again as fast.
const LEAST_LEVEL: u8 = 4;

/// So many answers may be ones that were there.
const FEW: u64 = 1 << 12;

/// So many of the first answers aren't counted: a small pattern has no more, and then the count takes no memory.
const UNCOUNTED: u64 = 1 << 6;

/// Answers for four squares. None is forgotten.
#[derive(Drop)]
pub(crate) struct Answers {
    pub(crate) table: Table,
    /// The different ones.
    different: IdNumbers,
    /// How many these are.
    count: u64,
}

impl Answers {
    /// No answers. It takes no memory.
    pub(crate) fn new(alloc: Global, seed: Seed) -> Answers
        ensures { (key : KeyValue) (answer : IdValue) → ¬ TableGives result.table key answer }
    {
        Answers {
            table: Table::new(alloc, seed),
            different: IdNumbers::growing(alloc),
            count: 0,
        }
    }

    /// Whether most answers are for four squares of which no more is seen than of others.
    pub(crate) fn are_repeated(&self) -> bool {
        self.table.len() > self.count.saturating_mul(2).saturating_add(FEW)
    }
}

/// Whether squares of this level are remembered. Where only every other level is kept, few squares are made again, and half as many are kept.
pub(crate) fn is_kept(level: u8) -> bool {
    level >= LEAST_LEVEL && level % 2 == 0
}

// The key of four squares.
fn key_of(block: &Quarters) -> Key
    ensures { result ≡ key_of_block block.now }
{
    Key::of(Side::All, Side::All, block)
}

// Counts an answer that is a new one, unless few were put before it.
fn count(answers: &mut Answers, answer: Id)
    ensures { answers.new.table ≡ answers.old.table }
{
    if answers.table.len() < UNCOUNTED || answers.different.get(answer).is_some() {
        return;
    }
    if let Ok(number) = answers.different.push(answer) {
        answers.count = number;
    }
}

/// The answer that is remembered for four squares of this level.
pub(crate) fn recalled(answers: &Answers, level: u8, block: &Quarters) -> Option<Id>
    ensures { IfSome result (TableGives answers.now.table (key_of_block block.now)) }
{
    if !is_kept(level) {
        return None;
    }
    answers.table.get(&key_of(block))
}

/// Remembers the answer for four squares of this level.
pub(crate) fn remember(answers: &mut Answers, level: u8, block: &Quarters, answer: Id)
    ensures { (other : KeyValue) (next : IdValue) → TableGives answers.new.table other next
        → TableGives answers.old.table other next
        ⊎ ((other ≡ key_of_block block.now) × (next ≡ answer)) }
{
    if !is_kept(level) {
        return;
    }
    count(answers, answer);
    answers.table.put(key_of(block), answer);
}
