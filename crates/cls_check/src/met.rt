//! What is known of covers and of arguments while rows are tested.
ghost use Rattle.std.specs.Prelude.{◌≡◌, ◌↔◌, [], IfOk, IsTrue, OnOk};
ghost use Rattle.cls_path.specs.Paths.{listed, type_of_paths, SuitsAll};
ghost use Rattle.cls_library.specs.Libraries.{variances_in};
ghost use Rattle.cls_check.specs.Goals.{AllSuit, IsAboveGoal};
ghost use Rattle.cls_check.specs.Tests.{AreMet};

use crate::findings::keep;
use crate::goals::Goals;
use crate::known::KnownSets;
use cls_base::OutOfMemory;
use cls_library::Library;
use cls_path::Nf;
use std::alloc::Global;

/// Covers that are known to meet their arguments, and arguments that are known to be above a goal. Further goals change
/// nothing of it.
#[derive(Drop)]
pub(crate) struct MetCovers {
    pub covers: KnownSets,
    pub above: Goals,
}

impl MetCovers {
    /// Nothing is known. It takes no memory.
    pub fn new(alloc: Global) -> MetCovers
        ensures covers { result.covers ≡ [] }
        ensures above { result.above ≡ [] }
    {
        MetCovers {
            covers: KnownSets::new(alloc),
            above: Goals::new(alloc),
        }
    }

    /// Whether the intersection is above a goal. Most are a goal, and these aren't kept.
    pub fn is_above(
        &mut self,
        alloc: Global,
        lib: &Library,
        goals: &Goals,
        nf: &Nf,
    ) -> Result<bool, OutOfMemory>
        requires goals { AllSuit lib.now goals.now }
        requires met { AreMet lib.now goals.now self.old }
        requires suits { SuitsAll (variances_in lib.now.taxonomy) (listed nf.now) }
        ensures above { IfOk result (λ above. IsTrue above
            ↔ IsAboveGoal lib.now goals.now (type_of_paths (listed nf.now))) }
        ensures met { OnOk result (AreMet lib.now goals.now self.new) }
    {
        if goals.has(nf) {
            return Ok(true);
        }
        self.is_found_above(alloc, lib, goals, nf)
    }

    /// The same if it is no goal.
    fn is_found_above(
        &mut self,
        alloc: Global,
        lib: &Library,
        goals: &Goals,
        nf: &Nf,
    ) -> Result<bool, OutOfMemory>
        requires goals { AllSuit lib.now goals.now }
        requires met { AreMet lib.now goals.now self.old }
        requires suits { SuitsAll (variances_in lib.now.taxonomy) (listed nf.now) }
        ensures above { IfOk result (λ above. IsTrue above
            ↔ IsAboveGoal lib.now goals.now (type_of_paths (listed nf.now))) }
        ensures met { OnOk result (AreMet lib.now goals.now self.new) }
    {
        if self.above.has(nf) {
            return Ok(true);
        }
        if !goals.any_below(lib, nf) {
            return Ok(false);
        }
        keep(alloc, &mut self.above, nf)?;
        Ok(true)
    }
}
