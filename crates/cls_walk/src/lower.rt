//! The lower bound of the number of terms of a node and size: as many are surely different from one another. Only
//! head rules with one component and as many arguments can make the same term, and so can a pair of nodes and a head
//! rule with arguments.
ghost use Rattle.std.specs.Prelude.{◌≡◌, ℕ, IfOk, List, ◌∷◌, max};
ghost use Rattle.cls_base.specs.declared.rule.Rule.{Rule};
ghost use Rattle.cls_base.specs.Columns.{rule_of};
ghost use Rattle.cls_walk.specs.Counts.{greatest, pair_ways, pairs_of};
ghost use Rattle.cls_walk.specs.Stages.{counts, sure_count, IsColumn};
ghost use Rattle.cls_walk.specs.Tables.{capped};

use crate::numbers::{greater, plus};
use crate::run::runs_of;
use crate::stage::Stage;
use crate::ways::pair_ways_of;
use cls_base::limits::MAX_TERM_LENGTH;
use cls_base::{NodeRules, OutOfMemory, RuleBook, RuleRef};
use std::alloc::Global;

/// The greater of a number and the ways of the rule, where it is a pair of nodes.
fn with_pair(stage: &Stage, rule: RuleRef<'_>, best: u64) -> u64
    ensures { (rs : List (Rule ℕ)) (most : ℕ) → let f = greatest (pair_ways (counts stage.now) stage.now.size) in
        capped (max best (f (pairs_of (rule_of rule.entry ∷ rs)))) ≡ capped most
        → capped (max result (f (pairs_of rs))) ≡ capped most }
{
    match rule {
        RuleRef::Head {
            component: _,
            args: _,
        } => best,
        RuleRef::Any { left, right } => greater(best, pair_ways_of(stage, left, right)),
    }
}

/// In how many ways that pair of nodes makes a term that makes most.
fn greatest_pair(stage: &Stage, rules: &NodeRules) -> u64
    ensures { result ≡ capped (greatest (pair_ways (counts stage.now) stage.now.size) (pairs_of rules.now)) }
{
    let mut best = 0;
    for place in 0..rules.len() {
        let rule = rules.get(place);
        best = with_pair(stage, rule, best);
    }
    best
}

/// How many terms the rules surely make, 0 where a term of the size may be too long to stand on a page.
fn sure_ways_of(alloc: Global, stage: &Stage, rules: &NodeRules) -> Result<u64, OutOfMemory>
    ensures { IfOk result (λ n. n ≡ sure_count stage.now rules.now) }
{
    if u64::from(stage.size) > MAX_TERM_LENGTH {
        return Ok(0);
    }
    let (heads, alone) = runs_of(alloc, stage, rules)?;
    Ok(greater(heads, plus(alone, greatest_pair(stage, rules))))
}

/// The same for each node of a rule book.
pub(crate) fn lower_column<B: RuleBook>(
    alloc: Global,
    stage: &Stage,
    book: &B,
) -> Result<Vec<u64>, OutOfMemory>
    ensures { IfOk result (λ column. IsColumn (B.book book.now) (sure_count stage.now) column.items) }
{
    let mut column = Vec::new(alloc);
    for node in 0..book.count() {
        column.push(sure_ways_of(alloc, stage, book.rules(node))?)?;
    }
    Ok(column)
}
