//! Exact numbers of terms, by listing them over frames, up to what a pool has left.
ghost use Rattle.std.specs.Prelude.{ℕ, ◌+◌, ◌≤◌, List, IfOk, IfErr};
ghost use Rattle.cls_base.specs.declared.rule.Rule.{Rule};
ghost use Rattle.cls_term.specs.Costs.{cost_of};
ghost use Rattle.cls_enum.specs.Faults.{IfTooMany};
ghost use Rattle.cls_enum.specs.States.{IsOverfullAt};
ghost use Rattle.cls_walk.specs.Counts.{AtLeast};
ghost use Rattle.cls_walk.specs.Exact.{asked, CountIs, IsSearch, MadeIs};
ghost use Rattle.cls_walk.specs.FrameGuides.{IsGuide};

use crate::exact::Search;
use crate::node_count::count_of_node;
use crate::plan::Plan;
use cls_enum::PageFault;
use std::alloc::Global;

/// How many terms of a node have this size. Where they are more than `left`, that is too many.
pub(crate) fn count_within(
    alloc: Global,
    plan: &Plan,
    node: u32,
    size: u32,
    left: u64,
) -> Result<u64, PageFault>
    ensures within { IfOk result (λ n. n ≤ left) }
    ensures exact { (book : List (List (Rule ℕ))) → let cost = cost_of plan.now.costs.now in
        IsGuide book cost plan.now.guide → IfOk result (λ n. CountIs book cost size node n) }
    ensures over { (book : List (List (Rule ℕ))) → let cost = cost_of plan.now.costs.now in
        IsGuide book cost plan.now.guide
        → IfErr result (λ fault. IfTooMany fault (AtLeast book cost size node (left + 1))) }
{
    let most = left.min(u64::from(u32::MAX - 1)) as u32;
    let count = count_of_node(alloc, plan, node, size, most)?;
    if count <= most as usize {
        return Ok(count as u64);
    }
    if u64::from(most) < left {
        return Err(PageFault::OutOfMemory);
    }
    Err(PageFault::TooManyTerms)
}

/// The number of pairs that are made, with those of this size of all nodes but the start.
pub(crate) fn count_others(
    alloc: Global,
    plan: &Plan,
    search: Search,
    size: u32,
    made: u64,
) -> Result<u64, PageFault>
    requires within { made ≤ search.pool }
    ensures within { IfOk result (λ total. total ≤ search.entry.pool) }
    ensures made { (book : List (List (Rule ℕ))) → let r = asked plan.now search.entry in
        IsSearch book plan.now search.entry → MadeIs book r size 1 made
        → IfOk result (λ total. MadeIs book r (size + 1) 0 total) }
    ensures over { (book : List (List (Rule ℕ))) → let r = asked plan.now search.entry in
        IsSearch book plan.now search.entry → MadeIs book r size 1 made
        → IfErr result (λ fault. IfTooMany fault (IsOverfullAt book r (size + 1) 0 search.entry.pool)) }
{
    let mut total = made;
    for node in 1..search.width {
        total += count_within(alloc, plan, node, size, search.pool - total)?;
    }
    Ok(total)
}
