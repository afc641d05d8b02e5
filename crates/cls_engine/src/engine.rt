ghost use Rattle.std.specs.Prelude.{◌≡◌, ℕ, ◌<◌, IfOk, IfErr, IfSome, OnOk};
ghost use Rattle.cls_base.specs.Ty.{type_of};
ghost use Rattle.cls_term.specs.Costs.{cost_of};
ghost use Rattle.cls_expand.specs.Answers.{IsReady};
ghost use Rattle.cls_engine.specs.Closing.{IsClosingFault, IsKnown};
ghost use Rattle.cls_engine.specs.Engines.{seen_as};
ghost use Rattle.cls_engine.specs.Faults.{IsOversizedOr};
ghost use Rattle.cls_engine.specs.Goals.{Goal, IsGoalOf, IsSpread};
ghost use Rattle.cls_engine.specs.Options.{AreInRange};
ghost use Rattle.cls_engine.specs.Outcomes.{AreSizesOf, IsOutcome, IsVerdictOn};

use crate::fault::EngineFault;
use crate::options::Options;
use crate::outcomes::{Outcome, Outcomes};
use crate::recents::Recents;
use cls_base::limits::MAX_TYPE_SPREAD;
use cls_base::{Numbers, OutOfMemory, Ty};
use cls_finite::FiniteAnswer;
use cls_grammar::Grammar;
use cls_library::Library;
use cls_live::Parts;
use cls_norm::{fit, normal};
use cls_path::Nf;
use std::alloc::Global;
use std::marker::Model;

/// Answers queries by a library that it owns, with workers and within bounds. It is seen as the library, the costs of
/// the components and the options.
///
/// It keeps what the components make for the goals of earlier queries, the grammars of the goals that it was asked for
/// last, and what came of the last goals that it worked on: if a query has such a goal again, nothing is worked out
/// anew.
pub struct Engine {
    pub(crate) library: Library,
    pub(crate) costs: Numbers,
    pub(crate) options: Options,
    // What the components make for the goals of earlier queries.
    pub(crate) parts: Parts,
    // The grammars of the goals of the last queries.
    pub(crate) recents: Recents,
    // What came of the last goals that were worked on.
    pub(crate) outcomes: Outcomes,
    // A component came or went, and no closure was worked out since.
    pub(crate) changed: bool,
}

// Not derived, for the prover: so a caller's proof has one step where a value is dropped, and not one for each part of
// it.
impl Drop for Engine {
    fn drop(self) {
        let Engine {
            library: _,
            costs: _,
            options: _,
            parts: _,
            recents: _,
            outcomes: _,
            changed: _,
        } = self;
    }
}

impl Model for Engine {
    ghost use Rattle.std.specs.Coded.{codes};
    ghost use Rattle.cls_library.specs.Stored.{coded_library};
    ghost use Rattle.cls_engine.specs.Engines.{EngineSeen, seen_as, IsEngine};

    ghost Value = { EngineSeen };

    ghost coded = { Prim.hlevel (codes, coded_library) };

    ghost view = { λ e. seen_as e.library e.costs e.options };

    ghost invariant = { λ e. IsEngine (seen_as e.library e.costs e.options)
        e.parts.library e.recents.kept.items e.outcomes.kept.items };
}

impl Engine {
    /// The engine of a library, whose component x costs the number at place x of the list, or 1 if there is none. It
    /// takes no memory.
    pub fn new(alloc: Global, library: Library, costs: Numbers, options: Options) -> Engine
        requires in_range { AreInRange options }
        requires costs { (x : ℕ) → 0 < cost_of costs x }
        ensures { result ≡ seen_as library costs options }
    {
        let parts = Parts::new(alloc, &library);
        Engine {
            library,
            costs,
            options,
            parts,
            recents: Recents::new(alloc),
            outcomes: Outcomes::new(alloc),
            changed: false,
        }
    }

    /// The library.
    pub fn library(&self) -> &Library
        ensures { result.now ≡ self.now.library }
    {
        &self.library
    }

    /// Does nothing, and says what holds of each engine: its options are in their ranges, and each component costs at
    /// least 1.
    pub fn facts(&self)
        ensures in_range { AreInRange self.now.options }
        ensures costs { (x : ℕ) → 0 < cost_of self.now.costs x }
    {
        // For the prover: opens the engine's model.
        let _ = &self.costs;
    }

    /// The normal form of the type.
    pub(crate) fn normal_form(&self, alloc: Global, ty: &Ty) -> Result<Nf, OutOfMemory>
        ensures { IfOk result (IsGoalOf self.now.library (type_of ty.now)) }
    {
        normal(alloc, self.library().taxonomy(), ty)
    }

    /// The goal of the type. `Size` comes if and only if the type's spread is over the limit or its goal is too large.
    pub(crate) fn goal(&self, alloc: Global, ty: &Ty) -> Result<Nf, EngineFault>
        ensures goal { IfOk result (IsGoalOf self.now.library (type_of ty.now)) }
        ensures ready { IfOk result (IsReady self.now.library) }
        ensures narrow { OnOk result (IsSpread (type_of ty.now) → ⊥) }
        ensures size { IfErr result (IsOversizedOr self.now.library (type_of ty.now)) }
    {
        if ty.spread() > MAX_TYPE_SPREAD {
            return Err(EngineFault::Size);
        }
        // For the prover: what holds of each library.
        let _count = self.library().count();
        let goal = self.normal_form(alloc, ty)?;
        if !fit(alloc, &goal)? {
            return Err(EngineFault::Size);
        }
        Ok(goal)
    }

    /// Takes the grammar of the goal, if it is kept.
    pub(crate) fn take_recent(&mut self, goal: &Nf) -> Option<Grammar>
        ensures same { self.new ≡ self.old }
        ensures known { IfSome result (IsKnown self.old.library self.old.options goal.now) }
    {
        self.recents.take(goal)
    }

    /// Keeps the grammar of a goal for later queries, if there is memory for it.
    pub(crate) fn keep_recent(&mut self, grammar: Grammar)
        requires { (start : Goal) × IsKnown self.old.library self.old.options start grammar }
        ensures same { self.new ≡ self.old }
    {
        self.recents.put(grammar);
    }

    /// Whether the start of the goal's grammar is productive, if what is kept of the goal tells.
    pub(crate) fn recent_verdict(&self, goal: &Nf) -> Option<bool>
        ensures { IfSome result (IsVerdictOn self.now.library self.now.options goal.now) }
    {
        self.outcomes.verdict(goal)
    }

    /// How large the terms of the goal are, if that is kept. None comes too if memory runs out.
    pub(crate) fn recent_sizes(&self, alloc: Global, goal: &Nf) -> Option<FiniteAnswer>
        ensures { IfSome result (AreSizesOf self.now.library self.now.options (cost_of self.now.costs) goal.now) }
    {
        self.outcomes.sizes(alloc, goal)
    }

    /// Fails with the fault of the goal's closure, if that is kept.
    pub(crate) fn recall(&self, alloc: Global, goal: &Nf) -> Result<(), EngineFault>
        ensures { IfErr result (IsClosingFault self.now.library self.now.options goal.now) }
    {
        self.outcomes.recall(alloc, goal)
    }

    /// Keeps what came of a goal for later queries, if there is memory for it.
    pub(crate) fn keep_outcome(&mut self, alloc: Global, goal: &Nf, outcome: Outcome)
        requires { IsOutcome self.old.library self.old.options (cost_of self.old.costs) goal.now outcome }
        ensures same { self.new ≡ self.old }
    {
        self.outcomes.put(alloc, goal, outcome);
    }
}
