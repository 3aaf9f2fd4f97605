//! A store that keeps each join as a node of its own.
ghost use Rattle.std.specs.Prelude.{◌≡◌, ◌<◌, ◌≤◌, ◌^◌, ◌+◌, [], ◌∷◌, ◌++◌, length, false, ◌↔◌, ◌⊎◌, Err, OnOk, OnErr, IfOk, IfErr};
ghost use Rattle.life_quad.specs.Words.{Full, Memory, depth, is_blank_tree, full_content, low_content, squares, content, node_square, Knows, IsNode, IsSoundStore};

use crate::id::{FIRST_NODE, Node, are_blank, no_room};
use crate::{Id, Squares};
use life_base::{Kind, State};
use std::alloc::Global;
use std::marker::Model;

/// Squares by their nodes, a node for each nonblank join.
#[derive(Drop)]
pub struct Plain {
    nodes: Vec<Node>,
    /// The level of each node's square.
    levels: Vec<u8>,
    limit: u64,
}

impl Model for Plain {
    ghost use Rattle.std.specs.Prelude.{[], ◌≡◌, ◌≤◌, length};
    ghost use Rattle.life_quad.specs.Store.{Nodes, IsSoundStore, levels_of};

    ghost Value = { Nodes };

    ghost view = { λ s. record { nodes = s.nodes.items; log = []; limit = s.limit } };

    ghost invariant = { λ s. IsSoundStore (record { nodes = s.nodes.items; log = []; limit = s.limit }) × (length s.nodes.items ≤ s.limit) × (s.levels.items ≡ levels_of s.nodes.items) };
}

impl Plain {
    ghost use Rattle.life_quad.specs.declared.id.TheConstants.{FIRST_NODE};

    /// An empty store for at most `limit` nodes. At 2^32 - 66,064 nodes `join` answers `Memory` for a new one where the limit is higher.
    pub fn new(alloc: Global, limit: u64) -> Plain
        requires { limit ≤ 2 ^ 62 }
        ensures stored { squares result.nodes ≡ [] }
        ensures most { result.limit ≡ limit }
    {
        Plain {
            nodes: Vec::new(alloc),
            levels: Vec::new(alloc),
            limit,
        }
    }

    /// The Id of a new node of a level.
    fn add(&mut self, node: Node, level: u8) -> Result<Id, Kind>
        requires node { IsNode self.old.log (squares self.old.nodes) (length self.old.nodes) node }
        requires level { level ≡ depth (node_square (squares self.old.nodes) node) }
        ensures stored { OnOk result (self.new ≡ record
            { nodes = self.old.nodes ++ node ∷ []; log = self.old.log; limit = self.old.limit }) }
        ensures id { IfOk result (λ id. id.0 ≡ FIRST_NODE + length self.old.nodes) }
        ensures sound { IsSoundStore self.new }
        ensures within { length self.old.nodes ≤ self.old.limit }
        ensures limit { self.new.limit ≡ self.old.limit }
        ensures full { (result ≡ Err Full) ↔ (length self.old.nodes ≡ self.old.limit) }
        ensures refusals { IfErr result (λ e. (e ≡ Full) ⊎ (e ≡ Memory)) }
        ensures unchanged { OnErr result (self.new ≡ self.old) }
    {
        let index = self.nodes.len() as u64;
        if let Some(kind) = no_room(index, index, self.limit) {
            return Err(kind);
        }
        self.levels.reserve(1)?;
        self.nodes.push(node)?;
        self.levels.push(level)?;
        Ok(Id(FIRST_NODE + index))
    }
}

impl Squares for Plain {
    ghost knows = { Knows };

    ghost content = { content };

    ghost stored = { λ s. squares s.nodes };

    ghost most = { λ s. s.limit };

    ghost needs_node = { λ s t. is_blank_tree t ≡ false };

    fn empty(&self, level: u8) -> Id {
        // To read a field opens the invariant to the proof: an Id is known in a sound store.
        let _ = &self.limit;
        Id::of_blank(level)
    }

    fn cell(&self, state: State) -> Id {
        let _ = &self.limit;
        Id::of_cell(state)
    }

    fn join(&mut self, nw: Id, ne: Id, sw: Id, se: Id) -> Result<Id, Kind> {
        let level = self.level(nw) + 1;
        if are_blank(nw, ne, sw, se) {
            return Ok(self.empty(level));
        }
        self.add(Node::of(nw, ne, sw, se), level)
    }

    fn parts(&self, id: Id) -> Option<[Id; 4]> {
        id.parts(self.nodes.as_slice())
    }

    fn state(&self, id: Id) -> Option<State> {
        id.state()
    }

    fn level(&self, id: Id) -> u8 {
        id.level(self.levels.as_slice())
    }

    fn small_cells(&self, id: Id) -> Option<u16> {
        id.cells()
    }

    ghost full = { full_content };

    ghost low = { low_content };
}
