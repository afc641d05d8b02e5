//! The upper bound of the number of terms of a node and size: in how many ways its rules make one.
ghost use Rattle.std.specs.Prelude.{◌≡◌, ◌≤◌, ℕ, [], IfOk};
ghost use Rattle.cls_base.specs.Columns.{rule_of};
ghost use Rattle.cls_term.specs.Costs.{cost_of};
ghost use Rattle.cls_walk.specs.Stages.{head_count, rule_count, rules_count, IsColumn};

use crate::numbers::{cost_at, plus};
use crate::stage::Stage;
use crate::ways::{pair_ways_of, ways_of};
use cls_base::{NodeRules, OutOfMemory, RuleBook, RuleRef};
use std::alloc::Global;

/// In how many ways a component without arguments makes a term.
pub(crate) fn leaf_ways_of(stage: &Stage, component: u32) -> u64
    ensures { result ≡ head_count stage.now (component, []) }
{
    if cost_at(stage.costs, component) == stage.size {
        1
    } else {
        0
    }
}

/// In how many ways a component with arguments of these nodes makes a term.
pub(crate) fn head_ways_of(
    alloc: Global,
    stage: &Stage,
    component: u32,
    nodes: &[u32],
) -> Result<u64, OutOfMemory>
    ensures { IfOk result (λ n. n ≡ head_count stage.now (component, nodes.now)) }
{
    let cost = cost_at(stage.costs, component);
    if cost > stage.size {
        return Ok(0);
    }
    Ok(ways_of(alloc, stage.table, nodes, stage.size - cost)?)
}

/// In how many ways a rule makes a term.
fn rule_ways_of(alloc: Global, stage: &Stage, rule: RuleRef<'_>) -> Result<u64, OutOfMemory>
    ensures { IfOk result (λ n. n ≡ rule_count stage.now (rule_of rule.entry)) }
{
    match rule {
        RuleRef::Head { component, args } => {
            if args.is_empty() {
                return Ok(leaf_ways_of(stage, component));
            }
            Ok(head_ways_of(alloc, stage, component, args)?)
        }
        RuleRef::Any { left, right } => Ok(pair_ways_of(stage, left, right)),
    }
}

/// In how many ways the rules together make a term.
fn all_ways_of(alloc: Global, stage: &Stage, rules: &NodeRules) -> Result<u64, OutOfMemory>
    ensures { IfOk result (λ n. n ≡ rules_count stage.now rules.now) }
{
    let mut total = 0;
    for place in 0..rules.len() {
        let rule = rules.get(place);
        total = plus(total, rule_ways_of(alloc, stage, rule)?);
    }
    Ok(total)
}

/// The same for each node of a rule book.
pub(crate) fn upper_column<B: RuleBook>(
    alloc: Global,
    stage: &Stage,
    book: &B,
) -> Result<Vec<u64>, OutOfMemory>
    requires { (x : ℕ) → 1 ≤ cost_of stage.now.costs.now x }
    ensures { IfOk result (λ column. IsColumn (B.book book.now) (rules_count stage.now) column.items) }
{
    let mut column = Vec::new(alloc);
    // No term has size 0.
    if stage.size == 0 {
        return Ok(column);
    }
    for node in 0..book.count() {
        column.push(all_ways_of(alloc, stage, book.rules(node))?)?;
    }
    Ok(column)
}
