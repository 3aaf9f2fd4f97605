//! What was answered for squares amid their neighbours.
ghost use Rattle.std.specs.Prelude.{◌≡◌, ◌⊎◌, List, map, IfSome};
ghost use Rattle.life_quad.specs.Words.{IdValue, SlotValue, Recalls, SlotHolds, number_of_id};

use crate::{Id, Seed};
use std::alloc::Global;
use std::marker::Model;

/// How many slots a memory begins with.
const FIRST_SLOTS: usize = 1 << 10;

/// How many it has at most, a power of four times as many.
const MOST_SLOTS: usize = 1 << 18;

/// From `n` slots more than `n^2` divided by this are recalled before there are more: a large memory has to be of more use than a small one.
const USE: usize = 1 << 15;

/// Nine squares and the answer for them, by the numbers of their Ids. Where the number of the answer is 0 there is none.
#[derive(Clone, Copy)]
pub(crate) struct Slot {
    pub(crate) around: [u32; 9],
    pub(crate) answer: u32,
}

/// A slot without an answer.
const EMPTY: Slot = Slot {
    around: [0; 9],
    answer: 0,
};

/// Answers for nine squares side by side, found by the numbers of their Ids in constant time. It forgets: each nine have one slot, which the last
/// that came there hold. It begins with 1,024 slots of 40 bytes when the first answer is put, and n slots become four times as many when more than
/// n^2 / 2^15 answers were recalled from them, up to 2^18. If memory is refused, nothing is remembered.
#[derive(Drop)]
pub struct NeighbourhoodMemory {
    /// None, or a power of two.
    slots: Vec<Slot>,
    words: [u64; 9],
    /// How many answers were recalled since it last grew.
    hits: usize,
}

impl Model for NeighbourhoodMemory {
    ghost use Rattle.std.specs.Prelude.{List};
    ghost use Rattle.life_quad.specs.declared.memory.Slot.{Slot};

    ghost Value = { List Slot };

    ghost view = { λ m. m.slots.items };
}

/// The number of an Id, where 32 bits hold it.
fn number_of(id: Id) -> Option<u32>
    ensures { IfSome result (λ n. n ≡ number_of_id id) }
{
    u32::try_from(id.0).ok()
}

/// The numbers of nine Ids, where 32 bits hold each.
fn numbers_of(ids: &[Id; 9]) -> Option<[u32; 9]>
    ensures { IfSome result (λ numbers. numbers ≡ map number_of_id ids.now) }
{
    let [nw, n, ne, w, here, e, sw, s, se] = *ids;
    Some([
        number_of(nw)?,
        number_of(n)?,
        number_of(ne)?,
        number_of(w)?,
        number_of(here)?,
        number_of(e)?,
        number_of(sw)?,
        number_of(s)?,
        number_of(se)?,
    ])
}

/// The sum of the numbers, each times a word of its own.
fn hash(words: &[u64; 9], numbers: &[u32; 9]) -> u64 {
    let mut sum = 0u64;
    for (word, number) in words.iter().zip(numbers) {
        sum = sum.wrapping_add(word.wrapping_mul(u64::from(*number)));
    }
    sum >> 32
}

/// Makes the first slots, or four times as many.
fn make_slots(slots: &mut Vec<Slot>)
    ensures { (p : SlotValue) → SlotHolds slots.new.items p → SlotHolds slots.old.items p }
{
    let count = if slots.is_empty() {
        FIRST_SLOTS
    } else {
        slots.len().saturating_mul(4)
    };
    let _refused = slots.resize(count, EMPTY).is_err();
}

/// Sets a slot, if it is there.
fn set_slot(slots: &mut Vec<Slot>, index: usize, slot: Slot)
    ensures { (p : SlotValue) → SlotHolds slots.new.items p → SlotHolds slots.old.items p
        ⊎ (p ≡ slot) }
{
    if index < slots.len() {
        slots[index] = slot;
    }
}

impl NeighbourhoodMemory {
    /// No answers. It takes no memory.
    pub fn new(alloc: Global, seed: Seed) -> NeighbourhoodMemory
        ensures { (ids : List IdValue) (answer : IdValue) → ¬ Recalls result ids answer }
    {
        NeighbourhoodMemory {
            slots: Vec::new(alloc),
            words: seed.nine_words(),
            hits: 0,
        }
    }

    /// The index of the slot of nine squares, where there are slots.
    fn index(&self, around: &[u32; 9]) -> usize {
        hash(&self.words, around) as usize & self.slots.len().wrapping_sub(1)
    }

    /// Makes more slots where they are of use.
    fn grow(&mut self)
        ensures { (p : SlotValue) → SlotHolds self.new p → SlotHolds self.old p }
    {
        let count = self.slots.len();
        let enough = count.saturating_mul(count) / USE;
        if count == 0 || (count < MOST_SLOTS && self.hits > enough) {
            make_slots(&mut self.slots);
            self.hits = 0;
        }
    }

    /// The answer that was put for these nine squares, unless it is forgotten.
    pub fn get(&mut self, ids: &[Id; 9]) -> Option<Id>
        ensures answer { IfSome result (λ answer. Recalls self.old ids.now answer) }
        ensures same { self.new ≡ self.old }
    {
        let around = numbers_of(ids)?;
        let index = self.index(&around);
        let slot = self.slots.get(index)?;
        if slot.answer == 0 || slot.around != around {
            return None;
        }
        self.hits = self.hits.saturating_add(1);
        Some(Id(u64::from(slot.answer)))
    }

    /// Puts the answer for nine squares.
    pub fn put(&mut self, ids: &[Id; 9], answer: Id)
        ensures { (around : List IdValue) (next : IdValue) → Recalls self.new around next
            → Recalls self.old around next ⊎ ((around ≡ ids.now) × (next ≡ answer)) }
    {
        let Some(around) = numbers_of(ids) else {
            return;
        };
        let Some(number) = number_of(answer) else {
            return;
        };
        self.grow();
        let index = self.index(&around);
        let slot = Slot {
            around,
            answer: number,
        };
        set_slot(&mut self.slots, index, slot);
    }
}
