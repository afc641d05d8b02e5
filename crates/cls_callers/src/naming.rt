//! Goals in place of the numbers of an answer.
ghost use Rattle.std.specs.Prelude.{◌≡◌, ◌∷◌, ◌++◌, [], ℕ, IfOk, OnOk, map};
ghost use Rattle.cls_core.specs.Arguments.{map_answer};
ghost use Rattle.cls_base.specs.Arguments.{map_rule};
ghost use Rattle.cls_base.specs.Columns.{rule_of};

use cls_base::{NodeRules, OutOfMemory, RuleRef};
use cls_core::{Answer, GoalRules, NodeAnswer};
use std::alloc::Global;

/// Has a goal for each number.
pub(crate) trait Names {
    type Goal: Drop;

    ghost named: { Self → ℕ → Self.Goal };

    /// The goal for this number. The only error is out of memory.
    fn name(&self, alloc: Global, number: u32) -> Result<Self::Goal, OutOfMemory>
        ensures { IfOk result (λ g. g ≡ named self.now number) };
}

/// Makes the list the goals for these numbers, whatever it held.
fn name_goals<N: Names>(
    alloc: Global,
    names: &N,
    numbers: &[u32],
    goals: &mut Vec<N::Goal>,
) -> Result<(), OutOfMemory>
    ensures { OnOk result (goals.new.items ≡ map (N.named names.now) numbers.now) }
{
    goals.clear();
    for number in numbers {
        goals.push(names.name(alloc, *number)?)?;
    }
    Ok(())
}

/// Puts the rule last, with goals in place of its numbers. `room` is room for its arguments, whatever it holds.
fn name_rule<N: Names>(
    alloc: Global,
    names: &N,
    rule: RuleRef<'_>,
    room: &mut Vec<N::Goal>,
    rules: &mut GoalRules<N::Goal>,
) -> Result<(), OutOfMemory>
    ensures { OnOk result (rules.new ≡ rules.old ++ map_rule (N.named names.now) (rule_of rule.entry) ∷ []) }
{
    match rule {
        RuleRef::Head { component, args } => {
            name_goals(alloc, names, args, room)?;
            rules.push_head(component, room)
        }
        RuleRef::Any { left, right } => {
            let left = names.name(alloc, left)?;
            let right = names.name(alloc, right)?;
            rules.push_any(left, right)
        }
    }
}

fn name_rules<N: Names>(
    alloc: Global,
    names: &N,
    rules: &NodeRules,
) -> Result<GoalRules<N::Goal>, OutOfMemory>
    ensures { IfOk result (λ named. named ≡ map (map_rule (N.named names.now)) rules.now) }
{
    let mut named = GoalRules::with_room(alloc, rules.len(), rules.arguments().len())?;
    let mut room = Vec::new(alloc);
    for place in 0..rules.len() {
        name_rule(alloc, names, rules.get(place), &mut room, &mut named)?;
    }
    Ok(named)
}

/// The answer with goals in place of its numbers. The only error is out of memory.
pub(crate) fn name_answer<N: Names>(
    alloc: Global,
    names: &N,
    answer: &NodeAnswer,
) -> Result<Answer<N::Goal>, OutOfMemory>
    ensures { IfOk result (λ named. named ≡ map_answer (N.named names.now) answer.now) }
{
    match answer.rules() {
        Some(rules) => Ok(Answer::Rules(name_rules(alloc, names, rules)?)),
        None => Ok(Answer::Wide),
    }
}
