//! Names with what they stand for, in order of declaration.
ghost use Rattle.std.specs.Prelude.{◌≡◌, [], ◌∷◌, ◌++◌, OnOk, None, length};
ghost use Rattle.std.specs.Option.{option_copied};
ghost use Rattle.typing_expressions.specs.Names.{found};

use indexmap::IndexMap;
use std::alloc::{AllocError, Global};
use std::marker::Model;

/// Names with what they stand for, in order of declaration. Contracts see it as the list of these pairs.
#[derive(Drop)]
pub struct Table<V> {
    names: IndexMap<Vec<u8>, V>,
}

impl<V> Model for Table<V> {
    ghost use Rattle.std.specs.Prelude.{List, ℕ, map};
    ghost use Rattle.std.specs.Coded.{coded_list, coded×, coded_ℕ};

    ghost Value = { List (List ℕ × V) };

    ghost coded = { coded_list (coded× (coded_list coded_ℕ) V.code) };

    ghost view = { λ t. map (λ e. (e.0.items, e.1)) t.names.entries };
}

impl<V> Table<V> {
    /// No names.
    pub fn new(alloc: Global) -> Table<V>
        ensures { result ≡ [] }
    {
        Table {
            names: IndexMap::new(alloc),
        }
    }

    /// How many names there are.
    pub fn len(&self) -> usize
        ensures { result ≡ length self.now }
    {
        self.names.len()
    }

    /// What the name stands for.
    pub fn get(&self, name: &[u8]) -> Option<&V>
        ensures { option_copied result ≡ found name.now self.now }
    {
        self.names.get(name)
    }

    /// Adds a name that is not there, as the last one.
    pub fn insert(&mut self, alloc: Global, name: &[u8], value: V) -> Result<(), AllocError>
    where
        V: Drop,
        requires { found name.now self.old ≡ None }
        ensures { OnOk result (self.new ≡ self.old ++ (name.now, value) ∷ []) }
    {
        let key = Vec::from_slice(alloc, name)?;
        self.names.insert(key, value)?;
        Ok(())
    }
}
