//! What is known of sets and of arguments while members are tested.
ghost use Rattle.std.specs.Prelude.{◌≡◌, ◌↔◌, ◌⊎◌, List, [], Contains, IfOk, IsTrue, OnOk};
ghost use Rattle.cls_path.specs.Paths.{TypePath, listed, type_of_paths, SuitsAll};
ghost use Rattle.cls_library.specs.Libraries.{variances_in};
ghost use Rattle.cls_check.specs.Goals.{AllSuit, IsBelowGoal};
ghost use Rattle.cls_check.specs.Tests.{AreRight};

use crate::goals::Goals;
use crate::known::KnownSets;
use cls_base::OutOfMemory;
use cls_library::Library;
use cls_norm::fit;
use cls_path::Nf;
use std::alloc::Global;

/// How many arguments a table keeps at most. Each is no larger than a goal that is worked on, so both tables take 42 MB at
/// most.
const MAX_KEPT: usize = 512;

/// Sets that are known to be blocked, and arguments that are known to be below a goal, or to be free: below none.
#[derive(Drop)]
pub(crate) struct Findings {
    pub sets: KnownSets,
    pub below: Goals,
    pub free: Goals,
}

impl Findings {
    /// Nothing is known. It takes no memory.
    pub fn new(alloc: Global) -> Findings
        ensures sets { result.sets ≡ [] }
        ensures below { result.below ≡ [] }
        ensures free { result.free ≡ [] }
    {
        Findings {
            sets: KnownSets::new(alloc),
            below: Goals::new(alloc),
            free: Goals::new(alloc),
        }
    }

    /// Whether the intersection is below a goal.
    pub fn is_below(
        &mut self,
        alloc: Global,
        lib: &Library,
        goals: &Goals,
        nf: &Nf,
    ) -> Result<bool, OutOfMemory>
        requires goals { AllSuit lib.now goals.now }
        requires right { AreRight lib.now goals.now self.old }
        requires suits { SuitsAll (variances_in lib.now.taxonomy) (listed nf.now) }
        ensures below { IfOk result (λ below. IsTrue below
            ↔ IsBelowGoal lib.now goals.now (type_of_paths (listed nf.now))) }
        ensures right { OnOk result (AreRight lib.now goals.now self.new) }
    {
        if self.below.has(nf) {
            return Ok(true);
        }
        if !self.is_found_below(alloc, lib, goals, nf)? {
            return Ok(false);
        }
        keep(alloc, &mut self.below, nf)?;
        Ok(true)
    }

    /// The same if it isn't known to be below one.
    fn is_found_below(
        &mut self,
        alloc: Global,
        lib: &Library,
        goals: &Goals,
        nf: &Nf,
    ) -> Result<bool, OutOfMemory>
        requires goals { AllSuit lib.now goals.now }
        requires right { AreRight lib.now goals.now self.old }
        requires suits { SuitsAll (variances_in lib.now.taxonomy) (listed nf.now) }
        ensures below { IfOk result (λ below. IsTrue below
            ↔ IsBelowGoal lib.now goals.now (type_of_paths (listed nf.now))) }
        ensures right { OnOk result (AreRight lib.now goals.now self.new) }
    {
        if self.free.has(nf) {
            return Ok(false);
        }
        if goals.any_above(lib, nf) {
            return Ok(true);
        }
        keep(alloc, &mut self.free, nf)?;
        Ok(false)
    }
}

/// Puts a copy of the intersection into the table, unless that is full or the intersection is large.
pub(crate) fn keep(alloc: Global, table: &mut Goals, nf: &Nf) -> Result<(), OutOfMemory>
    ensures { OnOk result ((g : List TypePath) → Contains table.new g → Contains table.old g ⊎ (g ≡ nf.now)) }
{
    if table.len() >= MAX_KEPT {
        return Ok(());
    }
    if !fit(alloc, nf)? {
        return Ok(());
    }
    table.put(nf.copy(alloc)?)?;
    Ok(())
}
