//! Squares that are found by others.
ghost use Rattle.std.specs.Prelude.{◌≡◌, ◌⊎◌, IfSome, take};
ghost use Rattle.life_quad.specs.Lanes as lanes;
ghost use Rattle.life_slide.specs.Words.{TableGives, IdValue, KeyValue, key_of_quarters};

use crate::sides::Side;
use indexmap::IndexMap;
use life_quad::{Id, Lanes, Quarters, Seed};
use std::alloc::Global;
use std::hash::{BuildHasher, Hasher};

/// The hasher of a store, which takes the lowest four bytes of each number.
#[derive(Clone, Copy, Drop)]
pub(crate) struct IdLanes {
    lanes: Lanes,
}

impl Hasher for IdLanes {
    ghost write = { λ h bytes. record { lanes = lanes.write h.lanes (take 4 bytes) } };

    ghost finish = { λ h. lanes.finish h.lanes };

    fn finish(&self) -> u64 {
        self.lanes.finish()
    }

    fn write(&mut self, bytes: &[u8]) {
        self.lanes.write(&bytes[..bytes.len().min(4)]);
    }
}

/// The seed of a store, for Ids.
#[derive(Clone, Copy, Drop)]
pub(crate) struct IdSeed {
    start: IdLanes,
}

impl BuildHasher for IdSeed {
    type Hasher = IdLanes;

    ghost build_hasher = { λ s. s.start };

    fn build_hasher(&self) -> IdLanes {
        self.start
    }
}

/// Four squares, and which columns and rows are seen of a square.
#[derive(Clone, Copy, PartialEq, Eq, Hash)]
pub(crate) struct Key {
    pub(crate) columns: Side,
    pub(crate) rows: Side,
    pub(crate) nw: Id,
    pub(crate) ne: Id,
    pub(crate) sw: Id,
    pub(crate) se: Id,
}

impl Key {
    /// The key of four squares.
    pub(crate) fn of(columns: Side, rows: Side, four: &Quarters) -> Key
        ensures { result ≡ key_of_quarters columns rows four.now }
    {
        Key {
            columns,
            rows,
            nw: four.nw,
            ne: four.ne,
            sw: four.sw,
            se: four.se,
        }
    }
}

/// A square for each key that was put. Nothing is forgotten, but where memory is refused nothing is put.
#[derive(Drop)]
pub(crate) struct Table {
    pub(crate) entries: IndexMap<Key, Id, IdSeed>,
}

impl Table {
    /// No squares. It takes no memory.
    pub(crate) fn new(alloc: Global, seed: Seed) -> Table
        ensures { (key : KeyValue) (answer : IdValue) → ¬ TableGives result key answer }
    {
        let start = IdLanes {
            lanes: seed.build_hasher(),
        };
        Table {
            entries: IndexMap::with_hasher(alloc, IdSeed { start }),
        }
    }

    /// How many keys were put.
    pub(crate) fn len(&self) -> u64 {
        self.entries.len() as u64
    }

    /// The square that was put for a key.
    pub(crate) fn get(&self, key: &Key) -> Option<Id>
        ensures { IfSome result (TableGives self.now key.now) }
    {
        match self.entries.get(key) {
            Some(answer) => Some(*answer),
            None => None,
        }
    }

    /// Puts the square of a key.
    pub(crate) fn put(&mut self, key: Key, answer: Id)
        ensures { (other : KeyValue) (next : IdValue) → TableGives self.new other next
            → TableGives self.old other next ⊎ ((other ≡ key) × (next ≡ answer)) }
    {
        let _refused = self.entries.insert(key, answer).is_err();
    }
}
