//! Whether a walk comes round.
ghost use Rattle.std.specs.Prelude.{◌≡◌, ◌==◌, ◌↔◌, ℕ, IsTrue, IfOk, IfSome, IfNone, option_map, slice_get};
ghost use Rattle.std.specs.List.{list_any};
ghost use Rattle.cls_base.specs.Columns.{rule_of};
ghost use Rattle.cls_grammar.specs.Ranks.{AreProductive};
ghost use Rattle.cls_finite.specs.declared.walk.Step as step_type;
ghost use Rattle.cls_finite.specs.Walks.{LeadsTo, Leads, IsRightWalk};

use crate::steps::argument;
use crate::walk::{Step, Walk};
use cls_base::{NodeRules, OutOfMemory, RuleBook, RuleRef};
use cls_grammar::{Flags, productive};
use std::alloc::Global;

// The rule at the place.
fn rule_at(rules: &NodeRules, place: usize) -> Option<RuleRef<'_>>
    ensures { option_map rule_of result ≡ slice_get rules.now place }
{
    if place < rules.len() {
        Some(rules.get(place))
    } else {
        None
    }
}

// Where the step leads to, None if there is no such step or its rule has an unproductive argument.
fn next_goal<B: RuleBook>(book: &B, flags: &Flags, step: Step) -> Option<u32>
    requires { AreProductive (B.book book.now) flags.now }
    ensures some { IfSome result (λ n. LeadsTo (B.book book.now) step n) }
    ensures none { IfNone result ((n : ℕ) → LeadsTo (B.book book.now) step n → ⊥) }
{
    if step.goal >= book.count() {
        return None;
    }
    let rules = book.rules(step.goal);
    let Some(rule) = rule_at(rules, step.rule) else {
        return None;
    };
    if !flags.is_useful(rule) {
        return None;
    }
    argument(rule, step.argument)
}

// Where the steps lead to from goal 0, None if they don't follow each other.
fn last_goal<B: RuleBook>(book: &B, flags: &Flags, steps: &[Step]) -> Option<u32>
    requires { AreProductive (B.book book.now) flags.now }
    ensures some { IfSome result (λ n. Leads (B.book book.now) 0 steps.now n) }
    ensures none { IfNone result ((n : ℕ) → Leads (B.book book.now) 0 steps.now n → ⊥) }
{
    let mut goal = 0;
    for step in steps {
        if step.goal != goal {
            return None;
        }
        let Some(next) = next_goal(book, flags, *step) else {
            return None;
        };
        goal = next;
    }
    Some(goal)
}

// Whether one of the steps is from the goal.
fn passes(steps: &[Step], goal: u32) -> bool
    ensures { result ≡ list_any (λ (s : step_type.Step). s.goal == goal) steps.now }
{
    steps.iter().any(|step| step.goal == goal)
}

/// Whether the walk comes round: it leads from goal 0 to the goal of one of its steps, by rules with only productive
/// arguments. The only error is out of memory.
pub fn right_walk<B: RuleBook>(alloc: Global, book: &B, walk: &Walk) -> Result<bool, OutOfMemory>
    ensures { IfOk result (λ right. IsTrue right ↔ IsRightWalk (B.book book.now) walk.now) }
{
    let flags = productive(alloc, book)?;
    let Some(end) = last_goal(book, &flags, walk.as_slice()) else {
        return Ok(false);
    };
    let right = passes(walk.as_slice(), end);
    Ok(right)
}
