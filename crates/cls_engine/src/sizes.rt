ghost use Rattle.std.specs.Prelude.{◌≡◌, ◌↔◌, IfOk, IfErr, OnOk};
ghost use Rattle.cls_base.specs.Ty.{type_of};
ghost use Rattle.cls_finite.specs.declared.answer.FiniteAnswer.TheVariants.{Over};
ghost use Rattle.cls_finite.specs.Answers.{IfFinite, IfInfinite, IsInfinite};
ghost use Rattle.cls_term.specs.Costs.{cost_of};
ghost use Rattle.cls_engine.specs.Faults.{IsFaultOf, AreSilent, closure_faults};
ghost use Rattle.cls_engine.specs.Outcomes.{AreSizes, AreSizesOf};
ghost use Rattle.cls_engine.specs.Sizes.{IsGreatest, IsGreatestOver, IsUnbounded, IsWalk};

use crate::engine::Engine;
use crate::fault::EngineFault;
use crate::host::Host;
use crate::outcomes::Outcome;
use cls_base::limits::MAX_FINITE_SIZE;
use cls_base::{Gate, OutOfMemory, Ty};
use cls_finite::{FiniteAnswer, finite};
use cls_grammar::Grammar;
use cls_path::Nf;
use std::alloc::Global;
use std::sync::Wait;
use std::thread::Threads;

impl Engine {
    /// How large the terms of the grammar's start are.
    fn sizes_of(&self, alloc: Global, grammar: &Grammar) -> Result<FiniteAnswer, OutOfMemory>
        ensures { IfOk result (AreSizes (cost_of self.now.costs) grammar.now) }
    {
        finite(alloc, grammar, &self.costs)
    }

    /// Keeps how large the terms of a goal are for later queries, if the walk isn't too long and there is memory for it.
    fn keep_sizes(&mut self, alloc: Global, goal: &Nf, answer: &FiniteAnswer)
        requires { AreSizesOf self.old.library self.old.options (cost_of self.old.costs) goal.now answer.now }
        ensures same { self.new ≡ self.old }
    {
        let Some(outcome) = Outcome::of_sizes(alloc, answer) else {
            return;
        };
        self.keep_outcome(alloc, goal, outcome);
    }

    /// How large the terms of the type are. The steps of a walk are those of the grammar of the type's goal.
    pub fn finite<R: Threads + Wait + Sync, T: Gate + Sync>(
        &mut self,
        host: &Host<R, T>,
        ty: &Ty,
    ) -> Result<FiniteAnswer, EngineFault>
        ensures same { self.new ≡ self.old }
        ensures greatest { IfOk result (λ answer.
            IfFinite answer (IsGreatest self.old.library (cost_of self.old.costs) (type_of ty.now))) }
        ensures over { IfOk result (λ answer. (answer ≡ Over)
            ↔ IsGreatestOver self.old.library (cost_of self.old.costs) (type_of ty.now) MAX_FINITE_SIZE) }
        ensures infinite { IfOk result (λ answer. IsInfinite answer
            ↔ IsUnbounded self.old.library (cost_of self.old.costs) (type_of ty.now)) }
        ensures walk { IfOk result (λ answer.
            IfInfinite answer (IsWalk self.old.library (cost_of self.old.costs) (type_of ty.now))) }
        ensures silent { OnOk result (AreSilent (closure_faults self.old.library self.old.options (type_of ty.now))) }
        ensures fault { IfErr result
            (IsFaultOf (closure_faults self.old.library self.old.options (type_of ty.now))) }
    {
        let goal = self.goal(host.alloc, ty)?;
        if let Some(answer) = self.recent_sizes(host.alloc, &goal) {
            return Ok(answer);
        }
        let grammar = self.closure(host, ty)?;
        let made = self.sizes_of(host.alloc, &grammar);
        self.keep_recent(grammar);
        let answer = made?;
        self.keep_sizes(host.alloc, &goal, &answer);
        Ok(answer)
    }
}
