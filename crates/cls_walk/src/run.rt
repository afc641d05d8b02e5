//! The sum over the runs of head rules that can make the same term, a component with as many arguments, of the
//! greatest number of ways in each.
ghost use Rattle.std.specs.Prelude.{◌≡◌, ℕ, true, false, IfOk, List, ◌∷◌, length};
ghost use Rattle.cls_base.specs.declared.rule.Rule.{Rule};
ghost use Rattle.cls_base.specs.Columns.{rule_of};
ghost use Rattle.cls_walk.specs.Counts.{HeadRule, heads_of, runs};
ghost use Rattle.cls_walk.specs.Runs.{KeepsSum};
ghost use Rattle.cls_walk.specs.Stages.{ways_if};
ghost use Rattle.cls_walk.specs.Tables.{capped};
ghost use Rattle.cls_walk.specs.declared.stage.Stage.{Stage};

use crate::numbers::{greater, plus};
use crate::stage::Stage;
use crate::upper::{head_ways_of, leaf_ways_of};
use cls_base::{NodeRules, OutOfMemory, RuleRef};
use std::alloc::Global;

/// A run of head rules: its component and number of arguments, the greatest number of ways so far, and the sum over
/// the runs before it.
#[derive(Clone, Copy)]
pub(crate) struct Run {
    component: u32,
    arguments: usize,
    best: u64,
    total: u64,
}

/// The run with one more head rule, or the next run.
fn with_head(run: Run, component: u32, arguments: usize, ways: u64) -> Run
    ensures { (f : HeadRule → ℕ) (ns : List ℕ) (hs : List HeadRule) → arguments ≡ length ns
        → ways ≡ capped (f (component, ns)) → KeepsSum f ((component, ns) ∷ hs) hs run result }
{
    if run.component == component && run.arguments == arguments {
        return Run {
            best: greater(run.best, ways),
            ..run
        };
    }
    Run {
        component,
        arguments,
        best: ways,
        total: plus(run.total, run.best),
    }
}

/// The runs of the head rules, and those where one with arguments counts for nothing.
#[derive(Clone, Copy)]
pub(crate) struct Runs {
    all: Run,
    alone: Run,
}

/// In how many ways a head rule makes a term.
fn ways_of_head(
    alloc: Global,
    stage: &Stage,
    component: u32,
    nodes: &[u32],
) -> Result<u64, OutOfMemory>
    ensures { IfOk result (λ n. n ≡ capped (ways_if stage.now false (component, nodes.now))) }
{
    if nodes.is_empty() {
        return Ok(leaf_ways_of(stage, component));
    }
    Ok(head_ways_of(alloc, stage, component, nodes)?)
}

/// The same where a rule with arguments counts for nothing, from these ways.
fn ways_if_leaf(nodes: &[u32], ways: u64) -> u64
    ensures { (stage : Stage) (x : ℕ) → ways ≡ capped (ways_if stage false (x, nodes.now))
        → result ≡ capped (ways_if stage true (x, nodes.now)) }
{
    if nodes.is_empty() { ways } else { 0 }
}

/// The runs with one more rule. A pair of nodes is none.
fn with_rule(
    alloc: Global,
    stage: &Stage,
    rule: RuleRef<'_>,
    runs: Runs,
) -> Result<Runs, OutOfMemory>
    ensures all { IfOk result (λ new. (rs : List (Rule ℕ)) → KeepsSum
        (ways_if stage.now false) (heads_of (rule_of rule.entry ∷ rs)) (heads_of rs) runs.all new.all) }
    ensures alone { IfOk result (λ new. (rs : List (Rule ℕ)) → KeepsSum
        (ways_if stage.now true) (heads_of (rule_of rule.entry ∷ rs)) (heads_of rs) runs.alone new.alone) }
{
    match rule {
        RuleRef::Head { component, args } => {
            let ways = ways_of_head(alloc, stage, component, args)?;
            Ok(Runs {
                all: with_head(runs.all, component, args.len(), ways),
                alone: with_head(runs.alone, component, args.len(), ways_if_leaf(args, ways)),
            })
        }
        RuleRef::Any { left: _, right: _ } => Ok(runs),
    }
}

/// The sum over the runs of the head rules, and that where those with arguments count for nothing.
pub(crate) fn runs_of(
    alloc: Global,
    stage: &Stage,
    rules: &NodeRules,
) -> Result<(u64, u64), OutOfMemory>
    ensures all { IfOk result (λ n. n.0 ≡ capped (runs (ways_if stage.now false) (heads_of rules.now))) }
    ensures alone { IfOk result (λ n. n.1 ≡ capped (runs (ways_if stage.now true) (heads_of rules.now))) }
{
    let none = Run {
        component: 0,
        arguments: 0,
        best: 0,
        total: 0,
    };
    let mut runs = Runs {
        all: none,
        alone: none,
    };
    for place in 0..rules.len() {
        let rule = rules.get(place);
        runs = with_rule(alloc, stage, rule, runs)?;
    }
    let Runs { all, alone } = runs;
    Ok((plus(all.total, all.best), plus(alone.total, alone.best)))
}
