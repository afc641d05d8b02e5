//! Goals in place of the numbers of an answer.
ghost use Rattle.std.specs.Prelude.{◌≡◌, ◌∷◌, ◌++◌, [], IfOk, OnOk, map, slice_index_or};
ghost use Rattle.cls_core.specs.Arguments.{map_answer};
ghost use Rattle.cls_base.specs.Arguments.{map_rule};
ghost use Rattle.cls_base.specs.Columns.{rule_of};

use cls_base::{Key, NodeRules, OutOfMemory, RuleRef};
use cls_core::{Answer, GoalRules, NodeAnswer};
use std::alloc::Global;

/// A copy of the goal with this number, or of the other goal if there is none.
fn name<G: Key + Drop>(alloc: Global, goals: &[G], other: &G, number: u32) -> Result<G, OutOfMemory>
    ensures { IfOk result (λ g. g ≡ slice_index_or goals.now number other.now) }
{
    goals.get(number as usize).unwrap_or(other).copy(alloc)
}

/// Makes the list copies of the goals with these numbers, whatever it held, and of the other goal for a number that no goal has.
/// The only error is out of memory.
pub fn name_goals<G: Key + Drop>(
    alloc: Global,
    goals: &[G],
    other: &G,
    numbers: &[u32],
    named: &mut Vec<G>,
) -> Result<(), OutOfMemory>
    ensures { OnOk result (named.new.items ≡ map (λ i. slice_index_or goals.now i other.now) numbers.now) }
{
    named.clear();
    for number in numbers {
        named.push(name(alloc, goals, other, *number)?)?;
    }
    Ok(())
}

/// Puts the rule last, with goals in place of its numbers. `room` is room for its arguments, whatever it holds.
fn name_rule<G: Key + Drop>(
    alloc: Global,
    goals: &[G],
    other: &G,
    rule: RuleRef<'_>,
    room: &mut Vec<G>,
    named: &mut GoalRules<G>,
) -> Result<(), OutOfMemory>
    ensures { OnOk result
        (named.new ≡ named.old ++ map_rule (λ i. slice_index_or goals.now i other.now) (rule_of rule.entry) ∷ []) }
{
    match rule {
        RuleRef::Head { component, args } => {
            name_goals(alloc, goals, other, args, room)?;
            named.push_head(component, room)
        }
        RuleRef::Any { left, right } => {
            let left = name(alloc, goals, other, left)?;
            let right = name(alloc, goals, other, right)?;
            named.push_any(left, right)
        }
    }
}

fn name_rules<G: Key + Drop>(
    alloc: Global,
    goals: &[G],
    other: &G,
    rules: &NodeRules,
) -> Result<GoalRules<G>, OutOfMemory>
    ensures { IfOk result (λ named. named ≡ map (map_rule (λ i. slice_index_or goals.now i other.now)) rules.now) }
{
    let mut named = GoalRules::with_room(alloc, rules.len(), rules.arguments().len())?;
    let mut room = Vec::new(alloc);
    for place in 0..rules.len() {
        name_rule(alloc, goals, other, rules.get(place), &mut room, &mut named)?;
    }
    Ok(named)
}

/// The answer with goals in place of their numbers, and with the other goal in place of a number that no goal has. The
/// only error is out of memory.
pub(crate) fn name_answer<G: Key + Drop>(
    alloc: Global,
    goals: &[G],
    other: &G,
    answer: &NodeAnswer,
) -> Result<Answer<G>, OutOfMemory>
    ensures { IfOk result (λ named. named ≡ map_answer (λ i. slice_index_or goals.now i other.now) answer.now) }
{
    match answer.rules() {
        Some(rules) => Ok(Answer::Rules(name_rules(alloc, goals, other, rules)?)),
        None => Ok(Answer::Wide),
    }
}
