//! Numbers for the Ids of a store.
ghost use Rattle.std.specs.Prelude.{◌≡◌, ◌≢◌, ◌^◌, false, ◌++◌, ◌∷◌, ◌-◌, ◌<◌, ◌≤◌, [], length, slice_get, AllPairs, Contains, IfOk, IfErr, OnOk, OnErr, IfSome, MatchOption, Some};
ghost use Rattle.life_quad.specs.Words.{Memory, IdValue, depth, is_blank_tree, Knows, content, value_of_id, IsInNumberRange, first_of, number_by, IsMemory};

use crate::id::FIRST_NODE;
use crate::id_map::IdMap;
use crate::join_log::JoinLog;
use crate::{Id, Shared};
use life_base::Kind;
use std::alloc::Global;
use std::marker::Model;

/// Ids in the order in which they came, each once, and a number for each: 1 for the first. The memory for the numbers is taken at once, four
/// bytes for each Id that may come from a store, so that nothing later is refused; or as they come, for pages of 256 Ids. The list itself is there
/// in contracts alone.
#[derive(Drop)]
pub struct IdNumbers {
    // The least number of an Id for which the list has capacity.
    first: u64,
    // From that one on, by the number of an Id: the one that it has here, or 0. None where the pages have them.
    numbers: Vec<u32>,
    // The same in pages.
    pages: IdMap<u32>,
    // How many Ids have one.
    count: u32,
    log: JoinLog,
}

impl Model for IdNumbers {
    ghost use Rattle.std.specs.Prelude.{◌≡◌, ◌<◌, ◌≤◌, ◌^◌, length, map};
    ghost use Rattle.life_quad.specs.Store.{id_of};
    ghost use Rattle.life_quad.specs.IdNumbers.{HasPlaces, NumberedIds, number_by};
    ghost use Rattle.life_quad.specs.IdMap.{value_of_id};

    ghost Value = { NumberedIds };

    ghost view = { λ a. record { ids = map id_of a.log.ids; space = record { first = a.first; size = length a.numbers.items } } };

    ghost invariant = { λ a. HasPlaces (map id_of a.log.ids) (number_by a.first a.numbers.items (value_of_id a.pages)) × (a.count ≡ length (map id_of a.log.ids)) × (length a.numbers.items < 2 ^ 32) × (a.first ≤ 66064) };
}

// The least number of the Id of a square of this level or a higher one that isn't blank: small squares, whose Ids come before those of nodes, are of
// level 1 or 2.
fn first_of(level: u8) -> u64
    ensures { result ≡ first_of level }
{
    if level > 2 { FIRST_NODE } else { 0 }
}

// The place of the number of an Id in a list from this Id on; past its end for an Id that comes before.
#[inline(always)]
fn index_from(first: u64, id: Id) -> usize
    requires { first ≤ 66064 }
    ensures from { first ≤ id.0 → result ≡ id.0 - first }
    ensures before { id.0 < first → 2 ^ 32 ≤ result }
{
    id.0.wrapping_sub(first) as usize
}

// The number of an Id, or 0.
fn number_in(first: u64, numbers: &[u32], pages: &IdMap<u32>, id: Id) -> u32
    requires first { first ≤ 66064 }
    requires few { length numbers.now < 2 ^ 32 }
    ensures { result ≡ number_by first numbers.now (value_of_id pages.now) id }
{
    match numbers.get(index_from(first, id)) {
        Some(number) => *number,
        None if numbers.is_empty() => pages.get(id),
        None => 0,
    }
}

impl IdNumbers {
    /// No numbers yet, and capacity for one for each Id of a square of this level or a higher one that the store knows and that isn't blank.
    ///
    /// # Errors
    ///
    /// `Memory`, and nothing else.
    pub fn new(alloc: Global, store: &Shared, level: u8) -> Result<IdNumbers, Kind>
        ensures none { IfOk result (λ numbers. numbers.ids ≡ []) }
        ensures space { IfOk result (λ numbers. (id : IdValue) → Knows store.now id
            → level ≤ depth (content store.now id) → is_blank_tree (content store.now id) ≡ false
            → IsInNumberRange numbers.space id) }
        ensures kind { IfErr result IsMemory }
    {
        let first = first_of(level);
        let size = store.nodes().saturating_add((FIRST_NODE - first) as usize);
        if size > u32::MAX as usize {
            return Err(Kind::Memory);
        }
        let mut numbers = Vec::new(alloc);
        numbers.resize(size, 0)?;
        let pages = IdMap::new(alloc, 0);
        let log = JoinLog::new();
        Ok(IdNumbers {
            first,
            numbers,
            pages,
            count: 0,
            log,
        })
    }

    /// No numbers yet, and no capacity: it is reserved as they come, so a few Ids of a large store take little. It takes no memory.
    pub fn growing(alloc: Global) -> IdNumbers
        ensures { result.ids ≡ [] }
    {
        IdNumbers {
            first: 0,
            numbers: Vec::new(alloc),
            pages: IdMap::new(alloc, 0),
            count: 0,
            log: JoinLog::new(),
        }
    }

    // The number of an Id, or 0.
    fn number(&self, id: Id) -> u32
        ensures absent { result ≡ 0 → ¬ Contains self.now.ids id }
        ensures there { 0 < result → slice_get self.now.ids (result - 1) ≡ Some id }
    {
        number_in(self.first, &self.numbers, &self.pages, id)
    }

    /// The number of an Id, where it has one.
    pub fn get(&self, id: Id) -> Option<u64>
        ensures number { MatchOption result (¬ Contains self.now.ids id)
            (λ number. slice_get self.now.ids (number - 1) ≡ Some id) }
        ensures counted { IfSome result (λ number. 1 ≤ number) }
        ensures distinct { AllPairs ◌≢◌ self.now.ids }
    {
        // To read a field opens the invariant to the proof: each Id occurs once.
        let _ = &self.count;
        match self.number(id) {
            0 => None,
            number => Some(number as u64),
        }
    }

    /// Gives an Id the next number, and returns it.
    ///
    /// # Errors
    ///
    /// `Memory`, and nothing else, for an Id for which no capacity was reserved at once. The numbers are then as they were.
    // Inlined, the walk that writes a large tree takes a hundredth less.
    #[inline(always)]
    pub fn push(&mut self, id: Id) -> Result<u64, Kind>
        requires { ¬ Contains self.old.ids id }
        ensures added { OnOk result (self.new.ids ≡ self.old.ids ++ id ∷ []) }
        ensures number { IfOk result (λ number. number ≡ length self.new.ids) }
        ensures space { OnOk result (self.new.space ≡ self.old.space) }
        ensures same { OnErr result (self.new ≡ self.old) }
        ensures kind { IfErr result IsMemory }
        ensures needed { OnErr result (¬ IsInNumberRange self.old.space id) }
    {
        let index = index_from(self.first, id);
        if index >= self.numbers.len() {
            return self.push_apart(id);
        }
        self.count += 1;
        self.numbers[index] = self.count;
        self.log = self.log.then(&[id.0]);
        Ok(self.count as u64)
    }

    // The same for an Id without capacity yet: its page is made, if numbers are in pages.
    #[inline(never)]
    fn push_apart(&mut self, id: Id) -> Result<u64, Kind>
        requires new { ¬ Contains self.old.ids id }
        requires apart { ¬ IsInNumberRange self.old.space id }
        ensures added { OnOk result (self.new.ids ≡ self.old.ids ++ id ∷ []) }
        ensures number { IfOk result (λ number. number ≡ length self.new.ids) }
        ensures space { OnOk result (self.new.space ≡ self.old.space) }
        ensures same { OnErr result (self.new ≡ self.old) }
        ensures kind { IfErr result IsMemory }
    {
        if !self.numbers.is_empty() {
            return Err(Kind::Memory);
        }
        let Some(count) = self.count.checked_add(1) else {
            return Err(Kind::Memory);
        };
        self.pages.set(id, count)?;
        self.count = count;
        self.log = self.log.then(&[id.0]);
        Ok(count as u64)
    }
}
