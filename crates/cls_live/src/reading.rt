//! Components in place of slots, and goals in place of their numbers.
ghost use Rattle.std.specs.Prelude.{◌≡◌, ℕ, ◌<◌, ◌^◌, ◌++◌, [], IfOk, OnOk, length};
ghost use Rattle.cls_base.specs.Columns.{rule_of};
ghost use Rattle.cls_expand.specs.Answers.{IsAnswer, IsReady};
ghost use Rattle.cls_live.specs.Slots.{AreRising, AreSlots, IsKnown, component_of, named, read_rule, read_rules, read_with};

use crate::known::Known;
use crate::slots::{component_with, count_below};
use cls_base::{NodeRules, OutOfMemory, RuleRef};
use cls_core::{Answer, GoalRules};
use cls_expand::{Expander, name_goals};
use cls_path::Nf;
use std::alloc::Global;

/// Puts the rule with the slot last, if the component of the slot is there. `other` is the goal without paths, and `room` is
/// room for arguments, whatever it holds.
fn read_head(
    alloc: Global,
    live: &[u32],
    goals: &[Nf],
    other: &Nf,
    slot: u32,
    args: &[u32],
    room: &mut Vec<Nf>,
    rules: &mut GoalRules<Nf>,
) -> Result<(), OutOfMemory>
    requires rising { AreRising 0 live.now }
    requires few { length live.now < 2 ^ 32 }
    requires other { other.now ≡ [] }
    ensures { OnOk result
        (rules.new ≡ rules.old ++ read_with (component_of live.now slot) (named goals.now args.now)) }
{
    let Some(x) = component_with(live, slot) else {
        return Ok(());
    };
    name_goals(alloc, goals, other, args, room)?;
    rules.push_head(x, room)
}

/// Puts the rule last, if it has a slot whose component is there.
fn read_one(
    alloc: Global,
    live: &[u32],
    goals: &[Nf],
    other: &Nf,
    rule: RuleRef<'_>,
    room: &mut Vec<Nf>,
    rules: &mut GoalRules<Nf>,
) -> Result<(), OutOfMemory>
    requires rising { AreRising 0 live.now }
    requires few { length live.now < 2 ^ 32 }
    requires other { other.now ≡ [] }
    ensures { OnOk result (rules.new ≡ rules.old ++ read_rule live.now goals.now (rule_of rule.entry)) }
{
    match rule {
        RuleRef::Head { component, args } => {
            read_head(alloc, live, goals, other, component, args, room, rules)
        }
        RuleRef::Any { .. } => Ok(()),
    }
}

/// The rules of the components that are there, with goals for arguments. The only error is out of memory.
pub(crate) fn read(
    alloc: Global,
    live: &[u32],
    goals: &[Nf],
    rules: &NodeRules,
) -> Result<GoalRules<Nf>, OutOfMemory>
    requires rising { AreRising 0 live.now }
    requires few { length live.now < 2 ^ 32 }
    ensures { IfOk result (λ found. found ≡ read_rules live.now goals.now rules.now) }
{
    let other = Nf::empty(alloc);
    let mut found = GoalRules::with_room(alloc, rules.len(), rules.arguments().len())?;
    let mut room = Vec::new(alloc);
    for place in 0..rules.len() {
        read_one(
            alloc,
            live,
            goals,
            &other,
            rules.get(place),
            &mut room,
            &mut found,
        )?;
    }
    Ok(found)
}

/// The answer of the goal: the rules of which this much is known, and what the other components make by the expander. The only
/// error is out of memory.
pub(crate) fn answer_by(
    alloc: Global,
    by: &Expander<'_>,
    live: &[u32],
    goals: &[Nf],
    known: &Known,
    goal: &Nf,
) -> Result<Answer<Nf>, OutOfMemory>
    requires ready { IsReady by.now goal.now }
    requires few { length live.now < 2 ^ 32 }
    requires stored { (next : ℕ) × AreSlots by.now live.now next
        × IsKnown by.now live.now next goals.now goal.now known.now }
    ensures { IfOk result (IsAnswer by.now goal.now) }
{
    if goal.paths().is_empty() {
        return by.rules_of(alloc, goal);
    }
    let rules = read(alloc, live, goals, &known.rules)?;
    let first = count_below(live, known.end);
    by.rules_from(alloc, goal, first as u32, rules)
}
