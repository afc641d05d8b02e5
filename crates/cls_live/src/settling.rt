//! Slots in place of the components of rules, and other numbers in place of their arguments.
ghost use Rattle.std.specs.Prelude.{◌≡◌, ◌∷◌, ◌++◌, [], IfOk, OnOk, map, slice_index_or};
ghost use Rattle.cls_base.specs.Columns.{rule_of};
ghost use Rattle.cls_live.specs.Slots.{settled};

use cls_base::{NodeRules, OutOfMemory, RuleRef};
use std::alloc::Global;

/// The number at this place, or 0 if there is none.
fn at(numbers: &[u32], place: u32) -> u32
    ensures { result ≡ slice_index_or numbers.now place 0 }
{
    numbers.get(place as usize).copied().unwrap_or(0)
}

/// Makes the list the numbers at these places, with 0 for one that there is none at.
fn gather(numbers: &[u32], places: &[u32], gathered: &mut Vec<u32>) -> Result<(), OutOfMemory>
    ensures { OnOk result (gathered.new.items ≡ map (λ i. slice_index_or numbers.now i 0) places.now) }
{
    gathered.clear();
    for place in places {
        gathered.push(at(numbers, *place))?;
    }
    Ok(())
}

/// Puts the rule last, with a slot and other numbers. `room` is room for its arguments, whatever it holds.
fn settle_rule(
    live: &[u32],
    numbers: &[u32],
    rule: RuleRef<'_>,
    room: &mut Vec<u32>,
    rules: &mut NodeRules,
) -> Result<(), OutOfMemory>
    ensures { OnOk result (rules.new ≡ rules.old ++ settled live.now numbers.now (rule_of rule.entry) ∷ []) }
{
    match rule {
        RuleRef::Head { component, args } => {
            gather(numbers, args, room)?;
            rules.push(RuleRef::Head {
                component: at(live, component),
                args: room.as_slice(),
            })
        }
        RuleRef::Any { left, right } => rules.push(RuleRef::Any {
            left: at(numbers, left),
            right: at(numbers, right),
        }),
    }
}

/// The rules with the slots of their components, and for each argument the number at its place. The only error is out of
/// memory.
pub(crate) fn settle_rules(
    alloc: Global,
    live: &[u32],
    numbers: &[u32],
    rules: &NodeRules,
) -> Result<NodeRules, OutOfMemory>
    ensures { IfOk result (λ r. r ≡ map (settled live.now numbers.now) rules.now) }
{
    let mut found = NodeRules::with_room(alloc, rules.len(), rules.arguments().len())?;
    let mut room = Vec::new(alloc);
    for place in 0..rules.len() {
        settle_rule(live, numbers, rules.get(place), &mut room, &mut found)?;
    }
    Ok(found)
}
