ghost use Rattle.std.specs.Prelude.{◌-◌, ◌<◌, ◌^◌, IfOk, IfErr, [], length};
ghost use Rattle.cls_base.specs.Terms.{component};
ghost use Rattle.cls_term.specs.Banks.{at};
ghost use Rattle.cls_base.specs.Lists.{AreBelow};
ghost use Rattle.cls_enum.specs.Candidates.{over};
ghost use Rattle.cls_enum.specs.Members.{AreFound};
ghost use Rattle.cls_enum.specs.Plans.{places_of, ArePruned, PlansPruned, plan_terms, plan_candidates};
ghost use Rattle.cls_enum.specs.HeldTerms.{held_terms, filled, each_filled, node_filled, Finds, FindsTooMany};

use crate::PageFault;
use crate::fill::fill;
use crate::held::Held;
use crate::partial_term::PartialTerm;
use crate::plan::{Place, Plan, is_barren};
use cls_term::SpineSet;
use std::alloc::Global;

/// Finds the spines of the terms of one size that the plans make, each once.
pub(crate) fn find(
    alloc: Global,
    held: &Held,
    plans: &[Plan],
    size: u32,
) -> Result<SpineSet, PageFault>
    requires small { size < 2 ^ 31 }
    requires pruned { PlansPruned (held_terms held.now) plans.now }
    ensures added { IfOk result (λ found.
        Finds held.now [] found (plan_candidates (held_terms held.now) size plans.now)) }
    ensures over { IfErr result (FindsTooMany held.now [] (plan_candidates (held_terms held.now) size plans.now)) }
{
    let mut found = SpineSet::new(alloc);
    for plan in plans {
        find_of(alloc, held, plan, size, &mut found)?;
    }
    Ok(found)
}

/// The same of one plan.
fn find_of(
    alloc: Global,
    held: &Held,
    plan: &Plan,
    size: u32,
    found: &mut SpineSet,
) -> Result<(), PageFault>
    requires small { size < 2 ^ 31 }
    requires pruned { ArePruned (held_terms held.now) (places_of plan.now) }
    requires found { AreFound held.now.bank.now found.old }
    ensures added { IfOk result (λ _.
        Finds held.now found.old found.new (plan_terms (held_terms held.now) size plan.now)) }
    ensures over { IfErr result (FindsTooMany held.now found.old (plan_terms (held_terms held.now) size plan.now)) }
{
    match plan {
        Plan::Head(head, cost, places) => {
            if *cost > size {
                return Ok(());
            }
            find_applied_head(alloc, held, *head, places.as_slice(), size - *cost, found)
        }
        Plan::Any(left, places) => {
            find_applied_node(alloc, held, *left, places.as_slice(), size, found)
        }
    }
}

fn find_applied_head(
    alloc: Global,
    held: &Held,
    head: u32,
    places: &[Place],
    rest: u32,
    found: &mut SpineSet,
) -> Result<(), PageFault>
    requires small { rest < 2 ^ 31 }
    requires pruned { ArePruned (held_terms held.now) places.now }
    requires found { AreFound held.now.bank.now found.old }
    ensures added { IfOk result (λ _.
        Finds held.now found.old found.new (filled held.now places.now rest (component head))) }
    ensures over { IfErr result (FindsTooMany held.now found.old (filled held.now places.now rest (component head))) }
{
    let mut partial = PartialTerm::from_head(alloc, head);
    fill(alloc, held, &mut partial, places, rest, found)
}

/// The terms of a node of all smaller sizes, each applied to terms at the places.
fn find_applied_node(
    alloc: Global,
    held: &Held,
    left: u32,
    places: &[Place],
    size: u32,
    found: &mut SpineSet,
) -> Result<(), PageFault>
    requires small { size < 2 ^ 31 }
    requires pruned { ArePruned (held_terms held.now) places.now }
    requires found { AreFound held.now.bank.now found.old }
    ensures added { IfOk result (λ _.
        Finds held.now found.old found.new (node_filled held.now places.now size left)) }
    ensures over { IfErr result (FindsTooMany held.now found.old (node_filled held.now places.now size left)) }
{
    for smaller in 0..size {
        let numbers = held.cells.get(smaller, left);
        find_applied(alloc, held, numbers, places, size - smaller, found)?;
    }
    Ok(())
}

/// Each of the terms with these numbers, applied to terms at the places.
fn find_applied(
    alloc: Global,
    held: &Held,
    numbers: &[u32],
    places: &[Place],
    rest: u32,
    found: &mut SpineSet,
) -> Result<(), PageFault>
    requires numbers { AreBelow (length held.now.bank.now) numbers.now }
    requires small { rest < 2 ^ 31 }
    requires pruned { ArePruned (held_terms held.now) places.now }
    requires found { AreFound held.now.bank.now found.old }
    ensures added { IfOk result (λ _.
        Finds held.now found.old found.new (each_filled held.now places.now rest numbers.now)) }
    ensures over { IfErr result (FindsTooMany held.now found.old (each_filled held.now places.now rest numbers.now)) }
{
    if is_barren(places, rest, 1) {
        return Ok(());
    }
    for number in numbers {
        let mut partial = PartialTerm::from_term(alloc, held.bank, *number)?;
        fill(alloc, held, &mut partial, places, rest, found)?;
    }
    Ok(())
}
