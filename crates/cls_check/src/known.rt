//! Sets of positions that are known to pass a test.
ghost use Rattle.std.specs.Prelude.{◌≡◌, ◌↔◌, ◌⊎◌, [], Contains, IfOk, IsTrue, OnOk};
ghost use Rattle.cls_check.specs.Known.{SetKey, key_of, placed};

use crate::place::Place;
use cls_base::OutOfMemory;
use indexmap::IndexSet;
use std::alloc::Global;
use std::marker::Model;

/// A set of positions of the arrows at a place.
#[derive(PartialEq, Eq, Hash, Drop)]
pub(crate) struct PlacedSet {
    pub(crate) place: Place,
    pub(crate) positions: Vec<u32>,
}

impl PlacedSet {
    /// The set of these positions. The only error is out of memory.
    fn new(alloc: Global, place: Place, positions: &[u32]) -> Result<PlacedSet, OutOfMemory>
        ensures { IfOk result (λ set. placed set ≡ key_of place positions.now) }
    {
        Ok(PlacedSet {
            place,
            positions: Vec::from_slice(alloc, positions)?,
        })
    }
}

/// Sets of positions at places, each once. They are seen as the list of them.
#[derive(Drop)]
pub(crate) struct KnownSets {
    sets: IndexSet<PlacedSet>,
}

impl Model for KnownSets {
    ghost use Rattle.std.specs.Prelude.{ℕ, List, map};
    ghost use Rattle.cls_check.specs.Known.{placed};

    ghost Value = { List ((ℕ × ℕ) × List ℕ) };

    ghost view = { λ k. map placed k.sets.keys };
}

impl KnownSets {
    /// No set. It takes no memory.
    pub fn new(alloc: Global) -> KnownSets
        ensures { result ≡ [] }
    {
        KnownSets {
            sets: IndexSet::new(alloc),
        }
    }

    /// Whether the set at the place is one of them. The only error is out of memory.
    pub fn has(&self, alloc: Global, place: Place, positions: &[u32]) -> Result<bool, OutOfMemory>
        ensures { IfOk result (λ has. IsTrue has ↔ Contains self.now (key_of place positions.now)) }
    {
        let set = PlacedSet::new(alloc, place, positions)?;
        Ok(self.sets.contains(&set))
    }

    /// Puts the set at the place among them. The only error is out of memory.
    pub fn put(&mut self, alloc: Global, place: Place, positions: &[u32]) -> Result<(), OutOfMemory>
        ensures { OnOk result ((k : SetKey) → Contains self.new k
            ↔ (Contains self.old k ⊎ (k ≡ key_of place positions.now))) }
    {
        let set = PlacedSet::new(alloc, place, positions)?;
        self.sets.insert(set)?;
        Ok(())
    }
}
