//! Where the next step of a descent leads.
ghost use Rattle.std.specs.Prelude.{◌≡◌, ◌<◌, ◌↔◌, ℕ, IsTrue, IfSome, IfNone, Some, slice_get, take};
ghost use Rattle.cls_base.specs.Arguments.{arguments_of_rule};
ghost use Rattle.cls_base.specs.Columns.{rule_of};
ghost use Rattle.cls_grammar.specs.Trimming.{is_useful};
ghost use Rattle.cls_finite.specs.Descents.{IsDone, AreDone, AllAreDone, IsPassed, IsNext};

use crate::descent::Mark;
use crate::walk::Step;
use cls_base::{NodeRules, RuleRef};
use cls_grammar::Flags;

/// The argument of the rule at the place.
pub(crate) fn argument(rule: RuleRef<'_>, place: usize) -> Option<u32>
    ensures { result ≡ slice_get (arguments_of_rule (rule_of rule.entry)) place }
{
    match rule {
        RuleRef::Head { component: _, args } => args.get(place).copied(),
        RuleRef::Any { left, right } => [left, right].get(place).copied(),
    }
}

// Whether the node is done.
fn is_done(marks: &[Mark], node: u32) -> bool
    ensures { IsTrue result ↔ IsDone marks.now node }
{
    matches!(marks.get(node as usize), Some(Mark::Done(_)))
}

// The first of the nodes that isn't done, and its place. Those before the given place are done.
fn first_undone(marks: &[Mark], nodes: &[u32], from: usize) -> Option<(usize, u32)>
    requires { AreDone marks.now (take from nodes.now) }
    ensures none { IfNone result (AreDone marks.now nodes.now) }
    ensures place { IfSome result (λ m. slice_get nodes.now m.0 ≡ Some m.1) }
    ensures before { IfSome result (λ m. AreDone marks.now (take m.0 nodes.now)) }
    ensures undone { IfSome result (λ m. IsDone marks.now m.1 → ⊥) }
{
    for place in from..nodes.len() {
        let node = nodes[place];
        if !is_done(marks, node) {
            return Some((place, node));
        }
    }
    None
}

// The first argument of the rule that isn't done, and its place. Those before the given place are done.
fn undone_argument(marks: &[Mark], rule: RuleRef<'_>, from: usize) -> Option<(usize, u32)>
    requires { AreDone marks.now (take from (arguments_of_rule (rule_of rule))) }
    ensures none { IfNone result (AreDone marks.now (arguments_of_rule (rule_of rule.entry))) }
    ensures place { IfSome result (λ m. slice_get (arguments_of_rule (rule_of rule.entry)) m.0 ≡ Some m.1) }
    ensures before { IfSome result (λ m. AreDone marks.now (take m.0 (arguments_of_rule (rule_of rule.entry)))) }
    ensures undone { IfSome result (λ m. IsDone marks.now m.1 → ⊥) }
{
    match rule {
        RuleRef::Head { component: _, args } => first_undone(marks, args, from),
        RuleRef::Any { left, right } => first_undone(marks, &[left, right], from),
    }
}

// Where a rule of those that may be used leads, past the given argument.
fn undone_useful(
    marks: &[Mark],
    flags: &Flags,
    rule: RuleRef<'_>,
    from: usize,
) -> Option<(usize, u32)>
    requires { IsTrue (is_useful flags.now (rule_of rule))
        → AreDone marks.now (take from (arguments_of_rule (rule_of rule))) }
    ensures none { IfNone result
        (IsTrue (is_useful flags.now (rule_of rule.entry))
        → AreDone marks.now (arguments_of_rule (rule_of rule.entry))) }
    ensures useful { IfSome result (λ _. IsTrue (is_useful flags.now (rule_of rule.entry))) }
    ensures place { IfSome result (λ m. slice_get (arguments_of_rule (rule_of rule.entry)) m.0 ≡ Some m.1) }
    ensures before { IfSome result (λ m. AreDone marks.now (take m.0 (arguments_of_rule (rule_of rule.entry)))) }
    ensures undone { IfSome result (λ m. IsDone marks.now m.1 → ⊥) }
{
    if flags.is_useful(rule) {
        undone_argument(marks, rule, from)
    } else {
        None
    }
}

/// The next step of the rules that may be used to an argument that isn't done, and that argument. All before the given
/// step are done.
pub(crate) fn next_step(
    marks: &[Mark],
    flags: &Flags,
    rules: &NodeRules,
    top: Step,
) -> Option<(Step, u32)>
    requires { IsPassed marks.now flags.now rules.now top.rule top.argument }
    ensures none { IfNone result (AllAreDone marks.now flags.now rules.now) }
    ensures goal { IfSome result (λ m. m.0.goal ≡ top.goal) }
    ensures next { IfSome result (λ m. IsNext marks.now flags.now rules.now m.0 m.1) }
{
    let mut from = top.argument;
    for rule in top.rule..rules.len() {
        if let Some((argument, next)) = undone_useful(marks, flags, rules.get(rule), from) {
            let step = Step {
                goal: top.goal,
                rule,
                argument,
            };
            return Some((step, next));
        }
        from = 0;
    }
    None
}
