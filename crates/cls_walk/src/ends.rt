//! Where the sizes of terms end: a term of at most 64 component occurrences is no larger than 64 times the greatest
//! cost.
ghost use Rattle.std.specs.Prelude.{◌≡◌, ℕ, ◌≤◌, List};
ghost use Rattle.cls_base.specs.Limits.{max_term_size};
ghost use Rattle.cls_base.specs.declared.rule.Rule.TheVariants.{Head};
ghost use Rattle.cls_base.specs.Columns.{rule_of};
ghost use Rattle.cls_term.specs.Costs.{cost_of};
ghost use Rattle.cls_walk.specs.Ends.{CostAtMost, EndsAt};

use crate::numbers::{cost_at, plus, times};
use cls_base::limits::MAX_TERM_LENGTH;
use cls_base::{NodeRules, Numbers, RuleBook, RuleRef};

/// The cost of the component that heads the rule, 0 where none does.
fn head_cost(rule: RuleRef<'_>, costs: &Numbers) -> u32
    ensures { (x : ℕ) (ns : List ℕ) → rule_of rule.entry ≡ Head x ns → cost_of costs.now x ≤ result }
{
    match rule {
        RuleRef::Head { component, args: _ } => cost_at(costs, component),
        RuleRef::Any { left: _, right: _ } => 0,
    }
}

/// The greatest of `least` and the costs of the components that head the rules.
fn greatest_cost(rules: &NodeRules, costs: &Numbers, least: u32) -> u32
    ensures kept { least ≤ result }
    ensures most { CostAtMost (cost_of costs.now) result rules.now }
{
    let mut best = least;
    for place in 0..rules.len() {
        let rule = rules.get(place);
        best = best.max(head_cost(rule, costs));
    }
    best
}

/// The greatest size that a listing has to look at, where it is asked for terms of size `max_size` at most.
pub(crate) fn last_size<B: RuleBook>(book: &B, costs: &Numbers, max_size: u32) -> u32
    requires max { max_size ≤ max_term_size }
    ensures within { result ≤ max_size }
    ensures ends { EndsAt (B.book book.now) (cost_of costs.now) max_size result }
{
    let mut best = 0;
    for node in 0..book.count() {
        best = greatest_cost(book.rules(node), costs, best);
    }
    let end = plus(times(u64::from(best), MAX_TERM_LENGTH), 1);
    if end < u64::from(max_size) {
        end as u32
    } else {
        max_size
    }
}
