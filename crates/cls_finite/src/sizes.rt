//! The greatest sizes of terms, counted up to one more than what is told.
ghost use Rattle.std.specs.Prelude.{◌≡◌, ◌+◌, ◌^◌, ℕ, List, [], min, length};
ghost use Rattle.std.specs.List.{sum_by};
ghost use Rattle.cls_base.specs.Columns.{rule_of};
ghost use Rattle.cls_term.specs.Costs.{cost_of};
ghost use Rattle.cls_finite.specs.Descents.{size_at, size_by, greatest_by};

use crate::descent::Mark;
use cls_base::limits::MAX_FINITE_SIZE;
use cls_base::{NodeRules, RuleRef};
use cls_grammar::Flags;

/// The first size that isn't told. Sizes are counted up to it.
pub(crate) const SIZE_CAP: u64 = MAX_FINITE_SIZE + 1;

// The sum of two sizes.
fn sum(a: u64, b: u64) -> u64
    ensures { result ≡ min (a + b) SIZE_CAP }
{
    a.saturating_add(b).min(SIZE_CAP)
}

// The greatest size of a term of a node that is done.
fn size_at(marks: &[Mark], node: u32) -> u64
    ensures { result ≡ size_at marks.now node }
{
    match marks.get(node as usize) {
        Some(Mark::Done(size)) => *size,
        _ => 0,
    }
}

// The sum of the greatest sizes of the nodes, which are done.
fn sizes_at(marks: &[Mark], nodes: &[u32]) -> u64
    ensures { result ≡ min (sum_by (size_at marks.now) nodes.now) SIZE_CAP }
{
    let mut total = 0;
    for node in nodes {
        total = sum(total, size_at(marks, *node));
    }
    total
}

// The cost of a component.
fn cost_at(costs: &[u32], component: u32) -> u64
    ensures { result ≡ cost_of costs.now component }
{
    u64::from(costs.get(component as usize).copied().unwrap_or(1))
}

// The greatest size of a term that the rule makes, if its arguments are done.
fn size_by(marks: &[Mark], costs: &[u32], rule: RuleRef<'_>) -> u64
    ensures { result ≡ size_by SIZE_CAP (cost_of costs.now) marks.now (rule_of rule.entry) }
{
    match rule {
        RuleRef::Head { component, args } => {
            sum(sizes_at(marks, args), cost_at(costs, component))
        }
        RuleRef::Any { left, right } => sizes_at(marks, &[left, right]),
    }
}

/// The greatest size of a term that the rules make, if the arguments of those that may be used are done. It is 0 if
/// there is no such rule.
pub(crate) fn greatest_by(marks: &[Mark], flags: &Flags, costs: &[u32], rules: &NodeRules) -> u64
    ensures { result ≡ greatest_by SIZE_CAP (cost_of costs.now) marks.now flags.now rules.now }
{
    let mut greatest = 0;
    for place in 0..rules.len() {
        let rule = rules.get(place);
        if flags.is_useful(rule) {
            greatest = size_by(marks, costs, rule).max(greatest);
        }
    }
    greatest
}
