//! In how many ways the sizes of some terms come to a sum.
ghost use Rattle.std.specs.Prelude.{◌≡◌, [], ◌∷◌, ◌+◌, ◌-◌, ◌*◌, ◌<◌, ◌^◌, IfOk, length, slice_index};
ghost use Rattle.cls_walk.specs.Counts.{total_below, ways};
ghost use Rattle.cls_walk.specs.Stages.{pair_count};
ghost use Rattle.cls_walk.specs.Tables.{capped, number_at, AreWays};

use crate::numbers::{plus, times};
use crate::stage::Stage;
use crate::table::Table;
use cls_base::OutOfMemory;
use std::alloc::Global;

/// The ways in which a term of the node and further terms, for which the ways are given by rest, come to `rest`.
fn with_node(table: &Table, node: u32, others: &[u64], rest: u32) -> u64
    requires rest { rest < length others.now }
    requires small { rest < 2 ^ 31 }
    ensures { result
        ≡ capped (total_below (rest + 1) (λ t. number_at table.now t node * slice_index others.now (rest - t))) }
{
    let mut total = 0;
    for size in 0..rest + 1 {
        let other = others[(rest - size) as usize];
        total = plus(total, times(table.get(size, node), other));
    }
    total
}

/// In how many ways a term of the node and terms of the others come to each rest up to the greatest.
fn by_rest(
    alloc: Global,
    table: &Table,
    node: u32,
    others: &[u32],
    greatest: u32,
) -> Result<Vec<u64>, OutOfMemory>
    requires small { greatest < 2 ^ 31 }
    ensures ways { IfOk result (λ list. AreWays (number_at table.now) (node ∷ others.now) list.items) }
    ensures long { IfOk result (λ list. length list.items ≡ greatest + 1) }
{
    let Some((next, further)) = others.split_first() else {
        return alone(alloc, table, node, greatest);
    };
    let known = by_rest(alloc, table, *next, further, greatest)?;
    let mut list = Vec::with_capacity(alloc, greatest as usize + 1)?;
    for rest in 0..greatest + 1 {
        list.push(with_node(table, node, known.as_slice(), rest))?;
    }
    Ok(list)
}

/// Where there are no others, the term itself has to come to the rest.
fn alone(alloc: Global, table: &Table, node: u32, greatest: u32) -> Result<Vec<u64>, OutOfMemory>
    requires small { greatest < 2 ^ 31 }
    ensures ways { IfOk result (λ list. AreWays (number_at table.now) (node ∷ []) list.items) }
    ensures long { IfOk result (λ list. length list.items ≡ greatest + 1) }
{
    let mut list = Vec::with_capacity(alloc, greatest as usize + 1)?;
    for rest in 0..greatest + 1 {
        list.push(table.get(rest, node))?;
    }
    Ok(list)
}

/// In how many ways a term of one node and a term of the other come to `rest`.
fn two_ways(table: &Table, first: u32, second: u32, rest: u32) -> u64
    requires small { rest < 2 ^ 31 }
    ensures { result ≡ capped (ways (number_at table.now) (first ∷ second ∷ []) rest) }
{
    let mut total = 0;
    for size in 0..rest + 1 {
        let other = table.get(rest - size, second);
        total = plus(total, times(table.get(size, first), other));
    }
    total
}

/// In how many ways terms of the nodes in turn have sizes that come to `rest`. For one or two nodes, as most rules have,
/// it takes no memory.
pub(crate) fn ways_of(
    alloc: Global,
    table: &Table,
    nodes: &[u32],
    rest: u32,
) -> Result<u64, OutOfMemory>
    requires small { rest < 2 ^ 31 }
    ensures { IfOk result (λ n. n ≡ capped (ways (number_at table.now) nodes.now rest)) }
{
    let Some((node, others)) = nodes.split_first() else {
        return Ok(if rest == 0 { 1 } else { 0 });
    };
    let Some((next, further)) = others.split_first() else {
        return Ok(table.get(rest, *node));
    };
    if further.is_empty() {
        return Ok(two_ways(table, *node, *next, rest));
    }
    let known = by_rest(alloc, table, *next, further, rest)?;
    Ok(with_node(table, *node, known.as_slice(), rest))
}

/// In how many ways a term of one node, applied to a term of the other, makes a term.
pub(crate) fn pair_ways_of(stage: &Stage, left: u32, right: u32) -> u64
    ensures { result ≡ pair_count stage.now (left, right) }
{
    let mut total = 0;
    for smaller in 0..stage.size {
        let others = stage.table.get(stage.size - smaller, right);
        total = plus(total, times(stage.table.get(smaller, left), others));
    }
    total
}
