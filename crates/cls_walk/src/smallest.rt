//! A size for each node than which no term of it is smaller, by the rules of each node, raised round by round.
ghost use Rattle.std.specs.Prelude.{◌≡◌, ℕ, ◌+◌, ◌<◌, ◌≤◌, IfOk, List, length, map, min, slice_index};
ghost use Rattle.cls_base.specs.declared.rule.Rule.{Rule};
ghost use Rattle.cls_term.specs.Costs.{cost_of};
ghost use Rattle.cls_walk.specs.Counts.{HeadRule};
ghost use Rattle.cls_walk.specs.FrameBegins.{heads_in, AreSized, AreTotals};
ghost use Rattle.cls_walk.specs.FrameColumns.{head_of, pair_of, AreRules};
ghost use Rattle.cls_walk.specs.FrameRules.{head_size, pair_size, pairs_in, ArePairsWithin, IsLowest, IsRaised};
ghost use Rattle.cls_walk.specs.Frames.{least_sum, AreLeastSizes};
ghost use Rattle.cls_walk.specs.Tables.{capped};

use crate::least::number_of;
use crate::numbers::{cost_at, plus};
use crate::rules::{Head, Pair, Rules};
use crate::table::Table;
use cls_base::{Numbers, OutOfMemory};
use std::alloc::Global;

/// What the least sizes of the nodes come to.
pub(crate) fn sum_of(least: &Numbers, nodes: &[u32]) -> u64
    ensures { result ≡ capped (least_sum (slice_index least.now) nodes.now) }
{
    let mut total = 0;
    for node in nodes {
        total = plus(total, u64::from(number_of(least, *node)));
    }
    total
}

/// What the component and the nodes of a head rule come to.
fn size_of_head(costs: &Numbers, least: &Numbers, head: Head) -> u64
    ensures { result ≡ capped (head_size (cost_of costs.now) least.now (head_of head.entry)) }
{
    plus(
        u64::from(cost_at(costs, head.component)),
        sum_of(least, head.nodes),
    )
}

/// The lesser of the two.
fn lesser(a: u32, b: u64) -> u32
    ensures { result ≡ min a b }
{
    if b < u64::from(a) { b as u32 } else { a }
}

/// The least that a head rule comes to, and `most` where each comes to more.
fn least_head(costs: &Numbers, least: &Numbers, heads: &[Head], most: u32) -> u32
    ensures { IsLowest HeadRule (head_size (cost_of costs.now) least.now) most (map head_of heads.now) result }
{
    let mut best = most;
    for head in heads {
        best = lesser(best, size_of_head(costs, least, *head));
    }
    best
}

/// What the nodes of a pair come to.
fn size_of_pair(least: &Numbers, pair: Pair) -> u64
    ensures { result ≡ capped (pair_size least.now (pair_of pair)) }
{
    let left = u64::from(number_of(least, pair.left));
    plus(left, u64::from(number_of(least, pair.right)))
}

/// The least that a pair comes to, and `most` where each comes to more.
fn least_pair(least: &Numbers, pairs: &[Pair], most: u32) -> u32
    ensures { IsLowest (ℕ × ℕ) (pair_size least.now) most (map pair_of pairs.now) result }
{
    let mut best = most;
    for pair in pairs {
        best = lesser(best, size_of_pair(least, *pair));
    }
    best
}

/// The sizes after one more round.
fn raised(
    alloc: Global,
    costs: &Numbers,
    rules: &Rules,
    least: &Numbers,
    count: u32,
    most: u32,
) -> Result<Numbers, OutOfMemory>
    ensures long { IfOk result (λ new. length new ≡ count) }
    ensures each { IfOk result (λ new. (n : ℕ) → n < count → IsRaised (cost_of costs.now) least.now most
        (map head_of (heads_in rules.now n)) (map pair_of (pairs_in rules.now n)) (slice_index new n)) }
{
    let mut new = Vec::with_capacity(alloc, count as usize)?;
    for node in 0..count {
        let head = least_head(costs, least, rules.heads_of(node), most);
        new.push(least_pair(least, rules.pairs_of(node), head))?;
    }
    Ok(Numbers::new(new))
}

/// 1 for each of so many nodes.
fn ones(alloc: Global, count: u32) -> Result<Numbers, OutOfMemory>
    ensures long { IfOk result (λ least. length least ≡ count) }
    ensures ones { IfOk result (λ least. (n : ℕ) → n < count → slice_index least n ≡ 1) }
{
    let mut least = Vec::with_capacity(alloc, count as usize)?;
    for _node in 0..count {
        least.push(1)?;
    }
    Ok(Numbers::new(least))
}

/// The sizes of so many nodes after so many rounds, up to `most`.
pub(crate) fn smallest_sizes(
    alloc: Global,
    costs: &Numbers,
    rules: &Rules,
    count: u32,
    most: u32,
) -> Result<Numbers, OutOfMemory>
    requires some { 1 ≤ most }
    requires positive { (x : ℕ) → 1 ≤ cost_of costs.now x }
    ensures { (book : List (List (Rule ℕ))) → AreRules book rules.now → ArePairsWithin book → length book ≤ count
        → IfOk result (λ least. AreLeastSizes book (slice_index least) (cost_of costs.now)) }
{
    let mut least = ones(alloc, count)?;
    for _round in 0..most {
        let next = raised(alloc, costs, rules, &least, count, most)?;
        if next.as_slice() == least.as_slice() {
            return Ok(next);
        }
        least = next;
    }
    Ok(least)
}

/// What the head rules of a node come to.
fn head_sizes_of(
    alloc: Global,
    costs: &Numbers,
    least: &Numbers,
    heads: &[Head],
) -> Result<Vec<u64>, OutOfMemory>
    ensures { let own = head_size (cost_of costs.now) least.now in
        IfOk result (λ sizes. AreTotals own heads.now sizes.items) }
{
    let mut sizes = Vec::with_capacity(alloc, heads.len())?;
    for head in heads {
        sizes.push(size_of_head(costs, least, *head))?;
    }
    Ok(sizes)
}

/// What each head rule of each node comes to, a column for each node.
pub(crate) fn head_sizes(
    alloc: Global,
    costs: &Numbers,
    least: &Numbers,
    rules: &Rules,
) -> Result<Table, OutOfMemory>
    ensures { let own = λ (h : HeadRule). cost_of costs.now h.0 + least_sum (slice_index least.now) h.1 in
        IfOk result (λ sizes. AreSized own rules.now sizes) }
{
    let mut sizes = Table::new(alloc);
    for heads in &rules.heads {
        sizes.push(head_sizes_of(alloc, costs, least, heads.as_slice())?)?;
    }
    Ok(sizes)
}
