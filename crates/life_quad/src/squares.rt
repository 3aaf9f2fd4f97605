//! What a store of squares offers.
ghost use Rattle.std.specs.Prelude.{◌≡◌, ◌↔◌, ℕ, ◌<◌, ◌≤◌, List, [], ◌∷◌, ◌++◌, length, map, All, Err, MatchOption, IfSome, IfOk, IfErr, OnOk, OnErr};
ghost use Rattle.life_base.specs.Tree.{Tree, point, quad, depth, blank, quarters, IsFull};
ghost use Rattle.life_base.specs.declared.kind.Kind.TheVariants.{Full, Memory};
ghost use Rattle.life_quad.specs.Keeping.{KeepsSquares, AddsOnly, IsShortageKind, MakesOneSquare};
ghost use Rattle.life_quad.specs.Moves.{CanJoin, quads_of};
ghost use Rattle.life_quad.specs.Refused.{SomeOf, SomePart};
ghost use Rattle.life_quad.specs.Store.{two, four, eight};
ghost use Rattle.life_quad.specs.declared.id.Id.{Id as IdValue};

use crate::{Id, Quarters, Seed};
use life_base::{Kind, MAX_LEVEL, State};

/// A store of squares. A square is named by an `Id`.
pub trait Squares {
    ghost use Rattle.life_base.specs.declared.cell.TheConstants.{MAX_LEVEL};

    // The Id names a square of the store.
    ghost knows: { Self → IdValue → Type 0 };

    // The square that has an Id.
    ghost content: { Self → IdValue → Tree };

    // The squares that are stored, oldest first.
    ghost stored: { Self → List Tree };

    // How many squares the store may hold.
    ghost most: { Self → ℕ };

    // A join that gives this square stores a new one.
    ghost needs_node: { Self → Tree → Type 0 };

    /// The blank square of a level.
    fn empty(&self, level: u8) -> Id
        requires { level ≤ MAX_LEVEL }
        ensures known { knows self.now result }
        ensures square { content self.now result ≡ blank level }
        ensures level { depth (content self.now result) ≡ level }
        ensures alone { (id : IdValue) → knows self.now id → content self.now id ≡ blank level
            → id ≡ result };

    /// The square of one cell.
    fn cell(&self, state: State) -> Id
        ensures known { knows self.now result }
        ensures square { content self.now result ≡ point state };

    /// The square of four quarters. A refused call leaves the store as it was.
    fn join(&mut self, nw: Id, ne: Id, sw: Id, se: Id) -> Result<Id, Kind>
        requires nw { knows self.old nw }
        requires ne { knows self.old ne }
        requires sw { knows self.old sw }
        requires se { knows self.old se }
        requires ne_level { depth (content self.old ne) ≡ depth (content self.old nw) }
        requires sw_level { depth (content self.old sw) ≡ depth (content self.old nw) }
        requires se_level { depth (content self.old se) ≡ depth (content self.old nw) }
        requires space { depth (content self.old nw) < MAX_LEVEL }
        ensures known { IfOk result (λ id. knows self.new id) }
        ensures square { IfOk result (λ id. content self.new id
            ≡ quad (content self.old nw) (content self.old ne) (content self.old sw)
            (content self.old se)) }
        ensures keeps { KeepsSquares knows content stored most self.old self.new }

        // The squares that are stored.
        ensures adds { let t = quad (content self.old nw) (content self.old ne)
            (content self.old sw) (content self.old se) in AddsOnly stored (λ P. P t) self.old
            self.new }
        ensures added { let t = quad (content self.old nw) (content self.old ne)
            (content self.old sw) (content self.old se) in OnOk result
            (needs_node self.old t → stored self.new ≡ stored self.old ++ t ∷ []) }
        ensures there { let t = quad (content self.old nw) (content self.old ne)
            (content self.old sw) (content self.old se) in OnOk result
            (¬ needs_node self.old t → stored self.new ≡ stored self.old) }

        // A new square gets an Id that named nothing before.
        ensures fresh { let t = quad (content self.old nw) (content self.old ne)
            (content self.old sw) (content self.old se) in IfOk result
            (λ id. needs_node self.old t → ¬ knows self.old id) }

        // It is refused only where the store is full or memory is refused, and only for a new square.
        ensures full { let t = quad (content self.old nw) (content self.old ne)
            (content self.old sw) (content self.old se) in (result ≡ Err Full)
            ↔ (needs_node self.old t × (length (stored self.old) ≡ most self.old)) }
        ensures space { result ≡ Err Memory → length (stored self.new) < most self.new }
        ensures refusals { IfErr result (IsShortageKind (stored self.new) (most self.new)) }
        ensures needed { let t = quad (content self.old nw) (content self.old ne)
            (content self.old sw) (content self.old se) in OnErr result (needs_node self.old t) }
        ensures unchanged { OnErr result (self.new ≡ self.old) };

    /// The squares of several times four quarters, in their order, each as `join` returns it. A store may look for all of them before it stores
    /// the new ones, so that it waits for memory once and not at each square.
    ///
    /// # Errors
    ///
    /// `Full` where a square is new and the store holds its limit, and `Memory`. After either each Id has its square, some of the squares may
    /// be stored, and what `squares` contains means nothing.
    fn join_all(&mut self, quarters: &[Quarters], squares: &mut [Id]) -> Result<(), Kind>
        requires each { All (CanJoin (knows self.old) (content self.old)) quarters.now }
        requires length { length squares.old ≡ length quarters.now }
        ensures known { OnOk result (All (knows self.new) squares.new) }
        ensures square { OnOk result (map (content self.new) squares.new
            ≡ quads_of (content self.old) quarters.now) }
        ensures keeps { KeepsSquares knows content stored most self.old self.new }
        ensures adds { AddsOnly stored
            (λ P. SomeOf P (quads_of (content self.old) quarters.now)) self.old self.new }
        ensures space { result ≡ Err Memory → length (stored self.new) < most self.new }
        ensures refusals { IfErr result (IsShortageKind (stored self.new) (most self.new)) }
        ensures needed { OnErr result
            (SomeOf (needs_node self.new) (quads_of (content self.old) quarters.now)) }
    {
        for (i, quarter) in quarters.iter().enumerate() {
            squares[i] = self.join(quarter.nw, quarter.ne, quarter.sw, quarter.se)?;
        }
        Ok(())
    }

    /// The four quarters, which a square of level 0 lacks.
    fn parts(&self, id: Id) -> Option<[Id; 4]>
        requires { knows self.now id }
        ensures { MatchOption result (quarters (content self.now id) ≡ [])
            (λ ids. All (knows self.now) ids
            × (map (content self.now) ids ≡ quarters (content self.now id))) };

    /// The state of a square of level 0.
    fn state(&self, id: Id) -> Option<State>
        requires { knows self.now id }
        ensures { MatchOption result (0 < depth (content self.now id))
            (λ s. content self.now id ≡ point s) };

    /// The level of a square.
    fn level(&self, id: Id) -> u8
        requires { knows self.now id }
        ensures level { result ≡ depth (content self.now id) }
        ensures low { result ≤ MAX_LEVEL };

    /// The square of level 2 with these cells of the states 0 and 1, if the store can find it without the Ids of its quarters. `None` doesn't
    /// mean that the square isn't stored, and is what a store without an index of small squares always returns. The highest four bits are the
    /// cells of the north-west quarter, followed by those of the north-east, the south-west and the south-east one; the cells of each quarter
    /// have the same order.
    fn find_small(&self, cells: u16) -> Option<Id>
        ensures { IfSome result (λ id. knows self.now id × (content self.now id ≡ four cells)) }
    {
        let _ = cells;
        None
    }

    /// The square of level 1 with these four cells of the states 0 and 1: the north-west one is the highest bit, then come the north-east, the
    /// south-west and the south-east one. A refused call leaves each Id its square.
    fn small_quarter(&mut self, cells: u16) -> Result<Id, Kind>
        requires { cells < 16 }
        ensures { MakesOneSquare knows content stored most needs_node self.old self.new (two cells)
            (λ P. P (two cells)) result }
    {
        let nw = self.cell((cells / 8) as u8);
        let ne = self.cell((cells / 4 % 2) as u8);
        let sw = self.cell((cells / 2 % 2) as u8);
        let se = self.cell((cells % 2) as u8);
        self.join(nw, ne, sw, se)
    }

    /// The square of level 2 with these cells of the states 0 and 1, as `find_small` takes them, where it is not there made of its quarters. After a
    /// refusal each Id has its square.
    fn small(&mut self, cells: u16) -> Result<Id, Kind>
        ensures { MakesOneSquare knows content stored most needs_node self.old self.new (four cells)
            (λ P. SomePart P (four cells)) result }
    {
        self.small_of_quarters(cells)
    }

    /// The same by way of its quarters, however the store finds it elsewhere. It is never inlined, so that `small` stays short.
    #[inline(never)]
    fn small_of_quarters(&mut self, cells: u16) -> Result<Id, Kind>
        ensures { MakesOneSquare knows content stored most needs_node self.old self.new (four cells)
            (λ P. SomePart P (four cells)) result }
    {
        if let Some(id) = self.find_small(cells) {
            return Ok(id);
        }
        let nw = self.small_quarter(cells / 4096)?;
        let ne = self.small_quarter(cells / 256 % 16)?;
        let sw = self.small_quarter(cells / 16 % 16)?;
        let se = self.small_quarter(cells % 16)?;
        self.join(nw, ne, sw, se)
    }

    /// The cells of a square of level 2 with the states 0 and 1, as `find_small` takes them, if the store can read them from the Id. `None`
    /// says nothing about the square, and is what a store whose Ids don't contain cells always returns: read its quarters instead.
    fn small_cells(&self, id: Id) -> Option<u16>
        requires { knows self.now id }
        ensures { IfSome result (λ cells. content self.now id ≡ four cells) }
    {
        let _ = id;
        None
    }

    /// The square of level 3 with these cells of the states 0 and 1: the highest sixteen bits are the cells of the north-west quarter, as `find_small`
    /// takes them, then come those of the north-east, the south-west and the south-east one. After a refusal each Id has its square.
    fn leaf(&mut self, cells: u64) -> Result<Id, Kind>
        ensures { MakesOneSquare knows content stored most needs_node self.old self.new
            (eight cells) (λ P. SomePart P (eight cells)) result }
    {
        let nw = self.small((cells / 0x1_0000_0000_0000) as u16)?;
        let ne = self.small((cells / 0x1_0000_0000 % 0x1_0000) as u16)?;
        let sw = self.small((cells / 0x1_0000 % 0x1_0000) as u16)?;
        let se = self.small((cells % 0x1_0000) as u16)?;
        self.join(nw, ne, sw, se)
    }

    /// The cells of a square of level 3 with the states 0 and 1, as `leaf` takes them, if the store can read them at once. `None` says nothing
    /// about the square, and is what a store whose Ids don't contain cells always returns: read its quarters instead.
    fn leaf_cells(&self, id: Id) -> Option<u64>
        requires { knows self.now id }
        ensures { IfSome result (λ cells. content self.now id ≡ eight cells) }
    {
        let _ = id;
        None
    }

    // The square of each Id is full and of the greatest level at most.
    ghost full: { (store : Self) (id : IdValue) → knows store id → IsFull (content store id) };

    ghost low: { (store : Self) (id : IdValue) → knows store id → depth (content store id) ≤ MAX_LEVEL };
}

/// A store that keeps each square once.
pub trait SharedSquares: Squares {
    /// The seed by which the store hashes its nodes. Other tables, such as the memory of a step, draw their own keys from it. A store
    /// that draws no seed of its own has the fixed one, `Seed::fixed`, whose keys everybody knows: use it for input that you trust.
    fn seed(&self) -> Seed {
        Seed::fixed()
    }

    // Two Ids are equal if their squares are.
    ghost same_id: { (store : Self) (a b : IdValue) → Self.knows store a → Self.knows store b → Self.content store a ≡ Self.content store b → a ≡ b };
}
