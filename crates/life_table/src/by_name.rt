//! The variables of a rule table, looked up by their names.

ghost use Rattle.std.specs.Prelude.{◌≡◌, ◌++◌, ◌∷◌, [], None, slice_get, option_map, OnOk, OnErr, IfOk, IfErr};
ghost use Rattle.life_table.specs.Words.{variable_named, IsMemory};

use crate::seed::NameSeed;
use crate::table::Var;
use indexmap::IndexMap;
use life_base::{Items, Kind};
use std::alloc::Global;
use std::marker::Model;

/// Variables with different names, in the order of their lines. A name is found without a walk over the others.
#[derive(Drop)]
pub(crate) struct Variables {
    states: IndexMap<Vec<u8>, [u64; 4], NameSeed>,
}

impl Model for Variables {
    ghost use Rattle.std.specs.Prelude.{List, map};
    ghost use Rattle.life_table.specs.declared.table.Var.{Var};

    ghost Value = { List Var };

    ghost use Rattle.life_table.specs.ByName.{var_of};

    ghost view = { λ v. map var_of v.states.entries };
}

impl Variables {
    /// No variables, whose names will be found by this seed. It takes no memory.
    pub(crate) fn new(alloc: Global, seed: NameSeed) -> Variables
        ensures { result ≡ [] }
    {
        Variables {
            states: IndexMap::with_hasher(alloc, seed),
        }
    }

    /// The number of the variable with this name.
    pub(crate) fn number_of(&self, name: &[u8]) -> Option<usize>
        ensures { result ≡ variable_named self.now name.now }
    {
        self.states.get_index_of(name)
    }

    /// The states of the variable with this number.
    pub(crate) fn states_of(&self, number: u64) -> Option<[u64; 4]>
        ensures { result ≡ option_map (λ var. var.states) (slice_get self.now number) }
    {
        match self.states.get_index(number as usize) {
            Some((_, states)) => Some(*states),
            None => None,
        }
    }

    /// Adds a variable with a new name at the end; a refusal, by `Memory` alone, leaves the variables as they were.
    pub(crate) fn push(&mut self, var: Var) -> Result<(), Kind>
        requires unnamed { variable_named self.old var.name ≡ None }
        ensures ok { OnOk result (self.new ≡ self.old ++ var ∷ []) }
        ensures err { OnErr result (self.new ≡ self.old) }
        ensures kind { IfErr result IsMemory }
    {
        let Var { name, states } = var;
        self.states.insert(name.into_vec(), states)?;
        Ok(())
    }

    /// The variables as a list.
    pub(crate) fn into_items(self, alloc: Global) -> Result<Items<Var>, Kind>
        ensures ok { IfOk result (λ vars. vars ≡ self) }
        ensures err { IfErr result IsMemory }
    {
        let Self { states: by_name } = self;
        let mut vars = Items::new(alloc);
        for (name, states) in by_name {
            vars.push(Var {
                name: Items::from_vec(name),
                states,
            })?;
        }
        Ok(vars)
    }
}
