//! Whether terms have types, of several types at once.
ghost use Rattle.std.specs.Prelude.{◌≡◌, ◌<◌, ◌≤◌, ◌++◌, [], ◌∷◌, IfOk, IfErr, OnOk, length, map};
ghost use Rattle.std.specs.List.{AllZip};
ghost use Rattle.cls_base.specs.Ty.{type_of};
ghost use Rattle.cls_callers.specs.Asking.{AreAsked, max_asked};
ghost use Rattle.cls_callers.specs.Unions.{HasLargeUnion};
ghost use Rattle.cls_expand.specs.Answers.{IsAnswer, IsReady};
ghost use Rattle.cls_table.specs.declared.fault.ExpandFault.TheVariants.{TooLarge};
ghost use Rattle.cls_engine.specs.Batches.{AreVerdicts, IsSomeOversizedOr, asked_of, batch_faults};
ghost use Rattle.cls_engine.specs.Batching.{AreDecided, AreRooted, IsDecidingFault, IsFitGoalOf};
ghost use Rattle.cls_engine.specs.Faults.{AreSilent, IsFaultOf};

use crate::asked_rows::{AskedGoals, decide, first_wide_of};
use crate::engine::Engine;
use crate::fault::EngineFault;
use crate::host::Host;
use crate::rows_book::wide_row;
use cls_base::{Gate, Goals, OutOfMemory, Ty};
use cls_callers::{AskGoal, Asked};
use cls_core::Rows;
use cls_expand::{Expander, Stored};
use cls_path::Nf;
use cls_table::{ExpandFault, Limits};
use cls_workers::expand_all;
use std::alloc::Global;
use std::sync::Wait;
use std::thread::Threads;

/// Puts the goal last.
fn put(goals: &mut Vec<Nf>, goal: Nf) -> Result<(), OutOfMemory>
    ensures { OnOk result (goals.new.items ≡ goals.old.items ++ goal ∷ []) }
{
    goals.push(goal)?;
    Ok(())
}

impl Engine {
    /// The goals of the types, in their order. `Size` comes if and only if the spread of one of the types is over
    /// the limit or its goal is too large.
    fn goals_of(&self, alloc: Global, types: &[Ty]) -> Result<Vec<Nf>, EngineFault>
        ensures goals { IfOk result (λ goals.
            AllZip (IsFitGoalOf self.now.library) (map type_of types.now) goals.items) }
        ensures size { IfErr result (IsSomeOversizedOr self.now.library (map type_of types.now)) }
    {
        let mut goals = Vec::new(alloc);
        for ty in types {
            let goal = self.goal(alloc, ty)?;
            put(&mut goals, goal)?;
        }
        Ok(goals)
    }

    /// Has the workers find the closure of the root of the asked goals, of which there are so many. They look each
    /// goal up among the answers that are kept first.
    fn expand_asked<R: Threads + Wait + Sync, T: Gate + Sync>(
        &self,
        host: &Host<R, T>,
        asked: &AskedGoals<'_, '_>,
        count: u32,
    ) -> Result<Rows<AskGoal<Nf>>, ExpandFault>
        requires count { count ≡ length asked.now.goals }
        ensures rooted { IfOk result (AreRooted asked.now) }
        ensures within { OnOk result
            (HasLargeUnion IsAnswer asked.now self.now.options.goals self.now.options.rules → ⊥) }
        ensures large { IfErr result (λ e. e ≡ TooLarge
            → HasLargeUnion IsAnswer asked.now self.now.options.goals self.now.options.rules) }
    {
        // For the prover: what holds of the asked goals, and of each engine.
        asked.facts();
        self.facts();
        // The root is one goal more, and has a rule for each asked goal.
        let limits = Limits {
            goals: self.options.goals + 1,
            rules: self.options.rules + count,
        };
        let finished = expand_all(
            host.rt,
            host.alloc,
            asked,
            AskGoal::Root,
            self.options.workers,
            limits,
            host.gate,
        )?;
        Ok(finished.rows)
    }

    /// For each of the goals in turn whether some term has it. There are so many.
    fn decide_together<R: Threads + Wait + Sync, T: Gate + Sync>(
        &self,
        host: &Host<R, T>,
        goals: Vec<Nf>,
        count: u32,
    ) -> Result<Vec<bool>, EngineFault>
        requires count { count ≡ length goals.items }
        requires asked { AreAsked IsReady (asked_of self.now.library goals.items) }
        ensures decided { IfOk result (λ says.
            AreDecided self.now.library self.now.options goals.items says.items) }
        ensures fault { IfErr result (IsDecidingFault self.now.library self.now.options goals.items) }
    {
        let expander = Expander::new(&self.library);
        let by = Stored::new(&expander, &self.parts);
        let goals = Goals::new(goals);
        let asked = Asked::new(&by, goals);
        let rows = self.expand_asked(host, &asked, count)?;
        match wide_row(&rows) {
            None => {
                let says = decide(host.alloc, &asked, &rows)?;
                Ok(says)
            }
            Some(_) => {
                let wide = first_wide_of(host.alloc, &asked, count, rows)?;
                Err(EngineFault::Wide(wide))
            }
        }
    }

    /// For each type in turn whether some term has it. There are at least one type and at most 64 (`max_asked`).
    ///
    /// The closures of their goals are made together, so what several of them have in common is worked out once, and
    /// the options limit what they have together. Answers that are kept from earlier queries are used, and none is
    /// kept of this one.
    pub fn batch<R: Threads + Wait + Sync, T: Gate + Sync>(
        &mut self,
        host: &Host<R, T>,
        types: &[Ty],
    ) -> Result<Vec<bool>, EngineFault>
        requires some { 0 < length types.now }
        requires few { length types.now ≤ max_asked }
        ensures same { self.new ≡ self.old }
        ensures exact { IfOk result (λ says. AreVerdicts self.old.library (map type_of types.now) says.items) }
        ensures silent { OnOk result
            (AreSilent (batch_faults self.old.library self.old.options (map type_of types.now))) }
        ensures fault { IfErr result
            (IsFaultOf (batch_faults self.old.library self.old.options (map type_of types.now))) }
    {
        let goals = self.goals_of(host.alloc, types)?;
        self.index(host.alloc)?;
        let count = types.len() as u32;
        let says = self.decide_together(host, goals, count)?;
        Ok(says)
    }
}
