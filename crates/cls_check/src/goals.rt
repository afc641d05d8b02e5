//! Goals that are known, as a table.
ghost use Rattle.std.specs.Prelude.{◌≡◌, ◌↔◌, ◌⊎◌, List, [], length, Contains, IsTrue, OnOk};
ghost use Rattle.cls_path.specs.Paths.{TypePath, listed, type_of_paths, SuitsAll};
ghost use Rattle.cls_library.specs.Libraries.{variances_in};
ghost use Rattle.cls_check.specs.Goals.{IsAboveGoal, IsBelowGoal, AllSuit};

use cls_base::OutOfMemory;
use cls_library::Library;
use cls_path::Nf;
use indexmap::IndexSet;
use std::alloc::Global;
use std::marker::Model;

/// Goals, each once. They are seen as the list of them.
#[derive(Drop)]
pub(crate) struct Goals {
    goals: IndexSet<Nf>,
}

impl Model for Goals {
    ghost use Rattle.std.specs.Prelude.{List};
    ghost use Rattle.std.specs.Coded.{coded_list};
    ghost use Rattle.cls_path.specs.Paths.{TypePath};
    ghost use Rattle.cls_path.specs.Stored.{coded_path};

    ghost Value = { List (List TypePath) };

    ghost coded = { coded_list (coded_list coded_path) };

    ghost view = { λ g. g.goals.keys };
}

impl Goals {
    /// No goal.
    pub fn new(alloc: Global) -> Goals
        ensures { result ≡ [] }
    {
        Goals {
            goals: IndexSet::new(alloc),
        }
    }

    /// The number of goals.
    pub fn len(&self) -> usize
        ensures { result ≡ length self.now }
    {
        self.goals.len()
    }

    /// Puts a goal into the table. The only error is out of memory.
    pub fn put(&mut self, goal: Nf) -> Result<(), OutOfMemory>
        ensures { OnOk result ((g : List TypePath) → Contains self.new g ↔ (Contains self.old g ⊎ (g ≡ goal))) }
    {
        self.goals.insert(goal)?;
        Ok(())
    }

    /// Whether a goal is below the intersection. An equal one is found at once.
    pub fn any_below(&self, lib: &Library, nf: &Nf) -> bool
        requires goals { AllSuit lib.now self.now }
        requires suits { SuitsAll (variances_in lib.now.taxonomy) (listed nf.now) }
        ensures { IsTrue result ↔ IsAboveGoal lib.now self.now (type_of_paths (listed nf.now)) }
    {
        if self.goals.contains(nf) {
            return true;
        }
        for goal in self.goals.as_slice() {
            if goal.le(lib.taxonomy(), nf) {
                return true;
            }
        }
        false
    }

    /// Whether the intersection is one of the goals.
    pub fn has(&self, nf: &Nf) -> bool
        ensures { IsTrue result ↔ Contains self.now nf.now }
    {
        self.goals.contains(nf)
    }

    /// Whether a goal is above the intersection. An equal one is found at once.
    pub fn any_above(&self, lib: &Library, nf: &Nf) -> bool
        requires goals { AllSuit lib.now self.now }
        requires suits { SuitsAll (variances_in lib.now.taxonomy) (listed nf.now) }
        ensures { IsTrue result ↔ IsBelowGoal lib.now self.now (type_of_paths (listed nf.now)) }
    {
        if self.goals.contains(nf) {
            return true;
        }
        for goal in self.goals.as_slice() {
            if nf.le(lib.taxonomy(), goal) {
                return true;
            }
        }
        false
    }
}
