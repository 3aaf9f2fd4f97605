//! A value for each square.
ghost use Rattle.std.specs.Prelude.{◌≡◌, ◌≢◌, ◌+◌, ◌<◌, ◌≤◌, ◌++◌, ℕ, length, replicate, slice_index_or, vec_len, OnOk, OnErr, IfErr};
ghost use Rattle.life_quad.specs.Words.{Memory, IdValue, value_of_id, HasPage, SetsValue, index_in, place_of, IsMemory};

use crate::Id;
use crate::id::FIRST_NODE;
use life_base::Kind;
use std::alloc::Global;
use std::marker::Model;

/// How many numbers a page has.
const PAGE: u64 = 256;

/// The page of the first nodes.
const NODES: u64 = FIRST_NODE / PAGE;

/// The first capacity of a map is for the places of the small squares and of the first nodes, and for twenty pages. A pattern of a few leaves
/// needs no more, and asks for memory twice.
const FIRST_PLACES: usize = NODES as usize + 2;

const FIRST_VALUES: usize = 20 * PAGE as usize;

/// The first index of a page that wasn't made: no value has it.
const NONE: u32 = u32::MAX;

/// A value for each Id, found by its number in two steps: the absent one, until another is set. The values are in pages of 256 numbers that
/// follow, each made when the first of them is set: so a few squares take little memory, whatever their numbers are, and many take one value for
/// each number and a 256th more.
#[derive(Drop)]
pub struct IdMap<T: Copy> {
    /// By the place of a page: the index of its first value.
    starts: Vec<u32>,
    /// The pages, in the order in which they were made.
    values: Vec<T>,
    absent: T,
}

impl<T: Copy> Model for IdMap<T> {
    ghost use Rattle.std.specs.Prelude.{length};
    ghost use Rattle.life_quad.specs.Pages.{Pages, ArePages};

    ghost Value = { Pages T };

    ghost view = { λ m. record { starts = m.starts.items; values = m.values.items; absent = m.absent } };

    ghost invariant = { λ m. ArePages m.starts.items (length m.values.items) };
}

/// The place of the page of a number. The page of the first nodes comes before all others, so that a few squares take no space for all the small ones
/// before them.
#[tactic(auto, unfolding(crate::specs::Pages::place_of))]
fn place_of(number: u64) -> u64
    ensures { result ≡ place_of number }
{
    let page = number / PAGE;
    if page == NODES {
        0
    } else if page < NODES {
        page + 1
    } else {
        page
    }
}

/// The index of a number's value. If its page wasn't made, it is after all values.
fn index_of(starts: &[u32], number: u64) -> usize
    ensures { result ≡ index_in starts.now number }
{
    let start = match starts.get(place_of(number) as usize) {
        Some(start) => *start,
        None => NONE,
    };
    start as usize + (number % PAGE) as usize
}

/// Makes a place, without a page.
fn make_place(starts: &mut Vec<u32>, place: u64) -> Result<(), Kind>
    ensures space { OnOk result (place < vec_len starts.new) }
    ensures same { (n : ℕ) → slice_index_or starts.new.items n 4294967295
        ≡ slice_index_or starts.old.items n 4294967295 }
    ensures kind { IfErr result IsMemory }
{
    if place < starts.len() as u64 {
        return Ok(());
    }
    let Some(length) = place.checked_add(1) else {
        return Err(Kind::Memory);
    };
    if starts.is_empty() {
        starts.reserve(FIRST_PLACES)?;
    }
    starts.resize(length as usize, NONE)?;
    Ok(())
}

/// Adds a page of a value after the others.
fn add_page<T: Copy>(values: &mut Vec<T>, value: T) -> Result<(), Kind>
    requires { length values.old.items + 256 ≤ 4294967295 }
    ensures page { OnOk result (values.new.items ≡ values.old.items ++ replicate 256 value) }
    ensures same { OnErr result (values.new.items ≡ values.old.items) }
    ensures kind { IfErr result IsMemory }
{
    let start = values.len();
    if start == 0 {
        values.reserve(FIRST_VALUES)?;
    }
    values.resize(start + PAGE as usize, value)?;
    Ok(())
}

impl<T: Copy> IdMap<T> {
    /// The absent value for every Id. It allocates nothing.
    pub fn new(alloc: Global, absent: T) -> IdMap<T>
        ensures { (q : IdValue) → value_of_id result q ≡ absent }
    {
        let starts = Vec::new(alloc);
        let values = Vec::new(alloc);
        IdMap {
            starts,
            values,
            absent,
        }
    }

    /// The value of an Id.
    pub fn get(&self, id: Id) -> T
        ensures { result ≡ value_of_id self.now id }
    {
        match self.values.get(index_of(&self.starts, id.0)) {
            Some(value) => *value,
            None => self.absent,
        }
    }

    /// Makes the page of an Id. Each value stays as it was, also where `Memory` refuses the page.
    pub(crate) fn make_space(&mut self, id: Id) -> Result<(), Kind>
        ensures space { OnOk result (HasPage self.new id) }
        ensures same { (q : IdValue) → value_of_id self.new q ≡ value_of_id self.old q }
        ensures refusals { IfErr result IsMemory }
    {
        let start = self.values.len();
        if index_of(&self.starts, id.0) < start {
            return Ok(());
        }
        if start > (NONE as u64 - PAGE) as usize {
            return Err(Kind::Memory);
        }
        let place = place_of(id.0);
        make_place(&mut self.starts, place)?;
        add_page(&mut self.values, self.absent)?;
        self.starts[place as usize] = start as u32;
        Ok(())
    }

    /// Sets the value of an Id whose page was made.
    pub(crate) fn put(&mut self, id: Id, value: T)
        requires { HasPage self.old id }
        ensures set { value_of_id self.new id ≡ value }
        ensures others { (q : IdValue) → q ≢ id → value_of_id self.new q ≡ value_of_id self.old q }
    {
        let index = index_of(&self.starts, id.0);
        self.values[index] = value;
    }

    /// Sets the value of an Id.
    ///
    /// # Errors
    ///
    /// `Memory` if the page of the Id can't be made. Then each value is what it was.
    pub fn set(&mut self, id: Id, value: T) -> Result<(), Kind>
        ensures { SetsValue self.old self.new id value result }
    {
        let index = index_of(&self.starts, id.0);
        if index < self.values.len() {
            self.values[index] = value;
            return Ok(());
        }
        self.set_apart(id, value)
    }

    /// The same where the page of the Id may have to be made. It is never inlined, so that `set` stays short.
    #[inline(never)]
    fn set_apart(&mut self, id: Id, value: T) -> Result<(), Kind>
        ensures { SetsValue self.old self.new id value result }
    {
        self.make_space(id)?;
        self.put(id, value);
        Ok(())
    }
}
