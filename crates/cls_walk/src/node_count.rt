//! How many terms of a node have a size, where they are listed over frames.
ghost use Rattle.std.specs.Prelude.{◌≡◌, ℕ, ◌≤◌, List, IfOk};
ghost use Rattle.cls_base.specs.declared.rule.Rule.{Rule};
ghost use Rattle.cls_term.specs.Costs.{cost_of};
ghost use Rattle.cls_walk.specs.Counts.{AtLeast, AtMost};
ghost use Rattle.cls_walk.specs.FrameGuides.{IsGuide};

use crate::cursor::passed;
use crate::guide::Guide;
use crate::plan::Plan;
use crate::stroll::stroll;
use crate::walk::Walk;
use cls_base::OutOfMemory;
use std::alloc::Global;

/// The same plan for the terms of this node, where so many codes are wanted.
fn plan_of_node<'a, 'b>(plan: &Plan<'a, 'b>, node: u32, take: u32) -> Plan<'a, 'b>
    ensures take { result.take ≡ take }
    ensures start { result.guide.start ≡ node }
    ensures costs { result.costs.now ≡ plan.now.costs.now }
    ensures guide { (book : List (List (Rule ℕ))) (cost : ℕ → ℕ)
        → IsGuide book cost plan.now.guide → IsGuide book cost result.guide }
{
    let guide = Guide {
        rules: plan.guide.rules,
        least: plan.guide.least,
        sizes: plan.guide.sizes,
        start: node,
        is_ordered: plan.guide.is_ordered,
    };
    Plan {
        costs: plan.costs,
        forms: plan.forms,
        least: plan.least,
        sizes: plan.sizes,
        upper: plan.upper,
        take,
        is_rising: plan.is_rising,
        guide,
    }
}

/// How many terms of a node have this size and may stand on a page, by listing them over frames. More than `most` are
/// given as some number over `most`.
pub(crate) fn count_of_node(
    alloc: Global,
    plan: &Plan,
    node: u32,
    size: u32,
    most: u32,
) -> Result<usize, OutOfMemory>
    ensures least { (book : List (List (Rule ℕ))) → let cost = cost_of plan.now.costs.now in
        IsGuide book cost plan.now.guide → IfOk result (λ n. AtLeast book cost size node n) }
    ensures most { (book : List (List (Rule ℕ))) → let cost = cost_of plan.now.costs.now in
        IsGuide book cost plan.now.guide → IfOk result (λ n. n ≤ most → AtMost book cost size node n) }
{
    let of_node = plan_of_node(plan, node, most);
    let mut walk = Walk::new(alloc);
    let _going = stroll(alloc, &of_node, &mut walk, size, passed())?;
    Ok(walk.codes.len())
}
