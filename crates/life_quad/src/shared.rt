//! A store that keeps each square once.
ghost use Rattle.std.specs.Prelude.{◌≡◌, All, ◌≢◌, ◌++◌, ◌∷◌, AllPairs, ◌<◌, ◌≤◌, ◌^◌, [], length, Contains, false, None};
ghost use Rattle.life_quad.specs.Words.{IdValue, Tree, depth, is_blank_tree, FIRST_NODE, value_of_id, full_content, low_content, same_id, squares, content, stored_squares, node_square, small_number_of, small_square, NodeValue, Knows, IsShared, IsNode, IsSmall, AnswersJoin, AreFound, CanJoin, IsFoundId};

use crate::id::{FIRST_NODE, FIRST_SMALL, LEVEL_TWO, Node, are_blank, no_room, small_number};
use crate::join_log::JoinLog;
use crate::marks::Marks;
use crate::{Id, Quarters, Seed, SharedSquares, Squares};
use indexmap::IndexSet;
use life_base::{Kind, State};
use std::alloc::Global;
use std::marker::Model;

/// The answer where a square has no node. No square has this Id.
const MISSING: Id = Id(u64::MAX);

/// Squares, each nonblank square once: small ones by a mark, the others by their nodes.
#[derive(Drop)]
pub struct Shared {
    nodes: IndexSet<Node, Seed>,
    /// The level of each node's square.
    levels: Vec<u8>,
    /// Whether a small square was joined.
    seen: Marks,
    /// How many of these were joined.
    small: u64,
    /// The Ids in the order of their first join.
    log: JoinLog,
    limit: u64,
    seed: Seed,
}

impl Model for Shared {
    ghost use Rattle.std.specs.Prelude.{◌≡◌, ◌+◌, length};
    ghost use Rattle.life_quad.specs.IdMap.{value_of_id};
    ghost use Rattle.life_quad.specs.Store.{Nodes, IsSoundStore, IsShared, HasSeen, levels_of};

    ghost Value = { Nodes };

    ghost view = { λ s. record { nodes = s.nodes.keys; log = s.log.ids; limit = s.limit } };

    ghost invariant = { λ s. IsSoundStore (record { nodes = s.nodes.keys; log = s.log.ids; limit = s.limit }) × IsShared (record { nodes = s.nodes.keys; log = s.log.ids; limit = s.limit }) × HasSeen (value_of_id s.seen) s.log.ids × (length s.log.ids ≡ length s.nodes.keys + s.small) × (s.levels.items ≡ levels_of s.nodes.keys) };
}

/// Takes back the node that was stored last.
#[cold]
#[inline(never)]
fn drop_last(nodes: &mut IndexSet<Node, Seed>)
    requires { 0 < length nodes.old.keys }
    ensures { (n : NodeValue) × (nodes.old.keys ≡ nodes.new.keys ++ n ∷ []) }
{
    let _last = nodes.pop();
}

impl Shared {
    ghost use Rattle.life_quad.specs.declared.id.TheConstants.{FIRST_SMALL};

    /// An empty store for at most `limit` distinct nonblank squares of level 1 and up. With 2^32 - 66,064 of them besides the small ones
    /// (level 1 or 2, states 0 and 1) `join` answers `Memory` for a new one that isn't small, where the limit is higher. The seed decides time
    /// alone: two stores with different ones hold the same squares by the same Ids.
    pub fn seeded(alloc: Global, seed: Seed, limit: u64) -> Shared
        requires { limit ≤ 2 ^ 62 }
        ensures stored { stored_squares result ≡ [] }
        ensures most { result.limit ≡ limit }
    {
        Shared {
            nodes: IndexSet::with_hasher(alloc, seed),
            levels: Vec::new(alloc),
            seen: Marks::new(alloc),
            small: 0,
            log: JoinLog::new(),
            limit,
            seed,
        }
    }

    /// An empty store with a fixed seed, for input that you trust: whoever knows the seed can choose squares that collide, and then each join takes
    /// time in proportion to the squares stored. `Shared::seeded` takes a seed of your own.
    pub fn new(alloc: Global, limit: u64) -> Shared
        requires { limit ≤ 2 ^ 62 }
        ensures stored { stored_squares result ≡ [] }
        ensures most { result.limit ≡ limit }
    {
        Shared::seeded(alloc, Seed::fixed(), limit)
    }

    /// How many distinct nonblank squares of level 1 and up were joined: none is counted twice, and each that has an Id is among
    /// them.
    pub fn len(&self) -> u64
        ensures len { result ≡ length (stored_squares self.now) }
        ensures distinct { AllPairs ◌≢◌ (stored_squares self.now) }
        ensures all { (id : IdValue) → Knows self.now id
            → is_blank_tree (content self.now id) ≡ false → 0 < depth (content self.now id)
            → Contains (stored_squares self.now) (content self.now id) }
        ensures only { (t : Tree) → Contains (stored_squares self.now) t
            → (is_blank_tree t ≡ false) × (0 < depth t)
            × ((id : IdValue) × Knows self.now id × (content self.now id ≡ t)) }
    {
        self.nodes.len() as u64 + self.small
    }

    /// The Id of a small square, which is marked if it is new.
    fn mark(&mut self, number: u64) -> Result<Id, Kind>
        requires small { IsSmall self.old.log (squares self.old.nodes) number }
        requires first { FIRST_SMALL ≤ number }
        requires last { number < FIRST_NODE }
        ensures { AnswersJoin self.old self.new (small_square number) result }
    {
        let id = Id(number);
        if self.seen.get(id) {
            return Ok(id);
        }
        self.mark_new(number)
    }

    /// The same of one that is new. It is never inlined, so that the join of one that is there stays short.
    #[inline(never)]
    fn mark_new(&mut self, number: u64) -> Result<Id, Kind>
        requires small { IsSmall self.old.log (squares self.old.nodes) number }
        requires first { FIRST_SMALL ≤ number }
        requires last { number < FIRST_NODE }
        requires new { ¬ Contains self.old.log number }
        ensures { AnswersJoin self.old self.new (small_square number) result }
    {
        let id = Id(number);
        if self.nodes.len() as u64 + self.small == self.limit {
            return Err(Kind::Full);
        }
        self.seen.set(id)?;
        self.small += 1;
        self.log = self.log.then(&[number]);
        Ok(id)
    }

    /// The Id of a node of a level, which is stored if it is new. Memory is requested only after the look-up, so that a node that is stored takes
    /// none. It is never inlined, so that `join` can be.
    #[inline(never)]
    fn intern(&mut self, node: Node, level: u8) -> Result<Id, Kind>
        requires sound { IsNode self.old.log (squares self.old.nodes) (length self.old.nodes) node }
        requires large { small_number_of node ≡ None }
        requires level { level ≡ depth (node_square (squares self.old.nodes) node) }
        ensures { AnswersJoin self.old self.new (node_square (squares self.old.nodes) node) result }
    {
        let nodes = self.nodes.len() as u64;
        if let Some(kind) = no_room(nodes + self.small, nodes, self.limit) {
            let Some(i) = self.nodes.get_index_of(&node) else {
                return Err(kind);
            };
            return Ok(Id(FIRST_NODE + i as u64));
        }
        let (i, is_new) = self.nodes.insert_full(node)?;
        let number = FIRST_NODE + i as u64;
        if is_new {
            if self.levels.push(level).is_err() {
                drop_last(&mut self.nodes);
                return Err(Kind::Memory);
            }
            self.log = self.log.then(&[number]);
        }
        Ok(Id(number))
    }

    /// The square of four quarters, if it has a node, and else `MISSING`.
    #[inline(always)]
    fn find(&self, quarters: Quarters) -> Id
        requires { CanJoin (λ id. Knows self.now id × IsShared self.now) (content self.now)
            quarters }
        ensures { IsFoundId self.now quarters result }
    {
        let Quarters { nw, ne, sw, se } = quarters;
        match self.nodes.get_index_of(&Node::of(nw, ne, sw, se)) {
            Some(i) => Id(FIRST_NODE + i as u64),
            None => MISSING,
        }
    }

    /// The same of several times four quarters, in their order. No look-up waits for another one, so the processor loads what they read from
    /// memory side by side.
    #[inline(never)]
    fn find_all(&self, quarters: &[Quarters], squares: &mut [Id])
        requires each { All (CanJoin (λ id. Knows self.now id × IsShared self.now)
            (content self.now)) quarters.now }
        requires length { length squares.old ≡ length quarters.now }
        ensures { AreFound self.now quarters.now squares.new (length quarters.now) }
    {
        for (i, quarter) in quarters.iter().enumerate() {
            squares[i] = self.find(*quarter);
        }
    }

    /// How many squares have a node: all that are held but the small ones, of level 1 and 2 and the states 0 and 1.
    pub fn nodes(&self) -> usize
        ensures { result ≡ length self.now.nodes }
    {
        self.nodes.len()
    }

    /// Reserves capacity for so many more nodes at once, where it is known that many squares will come: else the store moves all its nodes to new
    /// places each time it has twice as many. Where the memory is refused nothing is reserved. Nothing that can be seen of the store changes.
    pub fn reserve(&mut self, nodes: usize)
        ensures { self.new ≡ self.old }
    {
        let _refused = self.nodes.reserve(nodes).is_err() || self.levels.reserve(nodes).is_err();
    }

    /// The most squares that may be held.
    pub fn limit(&self) -> u64
        ensures { result ≡ self.now.limit }
    {
        self.limit
    }
}

impl Squares for Shared {
    ghost knows = { λ s id. Knows s id × IsShared s };

    ghost content = { content };

    ghost stored = { stored_squares };

    ghost most = { λ s. s.limit };

    ghost needs_node = { λ s t. (is_blank_tree t ≡ false) × ¬ Contains (stored_squares s) t };

    fn empty(&self, level: u8) -> Id {
        // To read a field opens the invariant to the proof: an Id is known in a sound store.
        let _ = &self.limit;
        Id::of_blank(level)
    }

    fn cell(&self, state: State) -> Id {
        let _ = &self.limit;
        Id::of_cell(state)
    }

    // Inlined, the generation of a soup takes a twentieth less time.
    #[inline(always)]
    fn join(&mut self, nw: Id, ne: Id, sw: Id, se: Id) -> Result<Id, Kind> {
        if are_blank(nw, ne, sw, se) {
            return Ok(self.empty(self.level(nw) + 1));
        }
        if let Some(number) = small_number(nw, ne, sw, se) {
            return self.mark(number);
        }
        let level = self.level(nw) + 1;
        self.intern(Node::of(nw, ne, sw, se), level)
    }

    // The squares that are stored are found before the first new one is stored.
    #[inline(never)]
    fn join_all(&mut self, quarters: &[Quarters], squares: &mut [Id]) -> Result<(), Kind> {
        self.find_all(quarters, squares);
        for (i, quarter) in quarters.iter().enumerate() {
            if squares[i] == MISSING {
                squares[i] = self.join(quarter.nw, quarter.ne, quarter.sw, quarter.se)?;
            }
        }
        Ok(())
    }

    fn parts(&self, id: Id) -> Option<[Id; 4]> {
        id.parts(self.nodes.as_slice())
    }

    fn state(&self, id: Id) -> Option<State> {
        id.state()
    }

    fn level(&self, id: Id) -> u8 {
        id.level(self.levels.as_slice())
    }

    fn small_quarter(&mut self, cells: u16) -> Result<Id, Kind> {
        let blank = self.empty(1);
        if cells == 0 {
            return Ok(blank);
        }
        self.mark(FIRST_SMALL + u64::from(cells))
    }

    fn find_small(&self, cells: u16) -> Option<Id> {
        if cells == 0 {
            return Some(self.empty(2));
        }
        let id = Id::of_cells(cells);
        if self.seen.get(id) { Some(id) } else { None }
    }

    // Once all squares of level 1 are there, as they soon are in a soup, no square of level 2 asks for its quarters.
    fn small(&mut self, cells: u16) -> Result<Id, Kind> {
        let blank = self.empty(2);
        if cells == 0 {
            return Ok(blank);
        }
        if self.seen.has_quarters() {
            return self.mark(LEVEL_TWO + u64::from(cells));
        }
        self.small_of_quarters(cells)
    }

    // A square of level 3 that isn't blank has a node, whichever its quarters are.
    fn leaf(&mut self, cells: u64) -> Result<Id, Kind> {
        let blank = self.empty(3);
        if cells == 0 {
            return Ok(blank);
        }
        let nw = self.small((cells / 0x1_0000_0000_0000) as u16)?;
        let ne = self.small((cells / 0x1_0000_0000 % 0x1_0000) as u16)?;
        let sw = self.small((cells / 0x1_0000 % 0x1_0000) as u16)?;
        let se = self.small((cells % 0x1_0000) as u16)?;
        self.intern(Node::of(nw, ne, sw, se), 3)
    }

    fn small_cells(&self, id: Id) -> Option<u16> {
        id.cells()
    }

    fn leaf_cells(&self, id: Id) -> Option<u64> {
        id.leaf_cells(self.nodes.as_slice())
    }

    ghost full = { λ s id h. full_content s id h.0 };

    ghost low = { λ s id h. low_content s id h.0 };
}

impl SharedSquares for Shared {
    fn seed(&self) -> Seed {
        self.seed
    }

    ghost same_id = { λ s a b ha hb e. same_id s ha.1 a b ha.0 hb.0 e };
}
