//! The answers of an expander under a root.
ghost use Rattle.std.specs.Prelude.{◌≡◌, ◌<◌, ◌≤◌, ◌^◌, IfOk, length, slice_index_or};
ghost use Rattle.cls_core.specs.Arguments.{map_answer};
ghost use Rattle.cls_core.specs.Machine.{begun, claimed, filed};
ghost use Rattle.cls_callers.specs.Asking.{asked_rules, max_asked};
ghost use Rattle.cls_callers.specs.declared.goal.AskGoal.TheVariants.{Of};

use crate::goal::AskGoal;
use crate::naming::{Names, name_answer};
use cls_base::{Key, OutOfMemory};
use cls_core::{Answer, Core, Filing, GoalRules, RowState};
use std::alloc::Global;

/// The goals of the rows of a core, under a root.
#[derive(Drop)]
struct CoreGoals<'a, G: Key + Drop> {
    core: &'a Core<G>,
    // It stands for a number that no row has.
    other: &'a G,
}

impl<G: Key + Drop> CoreGoals<'_, G> {
    // The goal of the row, or the other one.
    fn goal(&self, row: u32) -> &G
        ensures { result.now ≡ slice_index_or self.now.core.now.rows.goals row self.now.other.now }
    {
        if row < self.core.count() {
            self.core.goal(row)
        } else {
            self.other
        }
    }
}

impl<G: Key + Drop> Names for CoreGoals<'_, G> {
    type Goal = AskGoal<G>;

    ghost named = { λ r n. Of (slice_index_or r.core.now.rows.goals n r.other.now) };

    fn name(&self, alloc: Global, number: u32) -> Result<AskGoal<G>, OutOfMemory> {
        Ok(AskGoal::Of(self.goal(number).copy(alloc)?))
    }
}

/// The rules of the root: for each goal one, whose head is the goal's number, the first being 1.
pub(crate) fn root_rules<G: Key + Drop>(
    alloc: Global,
    goals: &[G],
) -> Result<GoalRules<AskGoal<G>>, OutOfMemory>
    requires { length goals.now ≤ max_asked }
    ensures { IfOk result (λ rules. rules ≡ asked_rules 1 goals.now) }
{
    let mut rules = GoalRules::with_room(alloc, goals.len(), goals.len())?;
    let mut args = Vec::new(alloc);
    let mut number = 1;
    for goal in goals {
        args.push(AskGoal::Of(goal.copy(alloc)?))?;
        rules.push_head(number, &mut args)?;
        number += 1;
    }
    Ok(rules)
}

/// A core in which the goal is filed with the answer, so that the answer can be read there.
fn file_alone<G: Key + Drop>(
    alloc: Global,
    goal: &G,
    answer: Answer<G>,
) -> Result<Core<G>, OutOfMemory>
    ensures { IfOk result (λ core. core.rows ≡ filed G.eq (claimed (begun goal.now) 0 0) 0 answer) }
{
    // For the prover: so many rules are counted.
    let _ = answer.rule_count();
    let mut core = Core::enter(alloc, goal.copy(alloc)?)?;
    core.claim(0, 0)?;
    match core.file(alloc, 0, 0, answer, u32::MAX) {
        Ok(Filing::Kept(_)) => Ok(core),
        _ => Err(OutOfMemory),
    }
}

/// The goal's answer, with each of its goals under a root. The only error is out of memory.
pub(crate) fn asked_answer<G: Key + Drop>(
    alloc: Global,
    goal: &G,
    answer: Answer<G>,
) -> Result<Answer<AskGoal<G>>, OutOfMemory>
    ensures { IfOk result (λ a. a ≡ map_answer Of answer) }
{
    let core = file_alone(alloc, goal, answer)?;
    let names = CoreGoals {
        core: &core,
        other: goal,
    };
    match core.state(0) {
        RowState::Filed(numbers) => name_answer(alloc, &names, numbers),
        _ => unreachable!(),
    }
}
