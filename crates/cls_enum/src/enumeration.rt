ghost use Rattle.std.specs.Prelude.{◌≡◌, ◌+◌, ◌<◌, ◌≤◌, IfOk, IfErr, length};
ghost use Rattle.cls_term.specs.Costs.{cost_of};
ghost use Rattle.cls_enum.specs.Plans.{book_of, AllReady};
ghost use Rattle.cls_enum.specs.Enumerations.{IsMadeTo, AreTooManyAt};

use crate::PageFault;
use crate::cells::Cells;
use crate::due::add_due;
use crate::make::make;
use crate::page_request::PageRequest;
use crate::plan::NodePlans;
use cls_term::Bank;
use std::alloc::Global;

/// The terms that are made so far, and the due ones among those of the start.
#[derive(Drop)]
pub(crate) struct Enumeration {
    pub(crate) bank: Bank,
    pub(crate) cells: Cells,
    pub(crate) due: Vec<u32>,
    pub(crate) total: u64,
}

/// Makes the terms of one size of a node.
pub(crate) fn make_node(
    alloc: Global,
    request: &PageRequest,
    plans: &[NodePlans],
    node: u32,
    size: u32,
    enumeration: &mut Enumeration,
) -> Result<(), PageFault>
    requires size { size ≤ request.now.max }
    requires node { node < length plans.now }
    requires ready { AllReady (book_of plans.now) (cost_of request.now.costs.now) size plans.now }
    requires kept { IsMadeTo plans.now request.now size node enumeration.old }
    requires within { enumeration.old.total ≤ request.now.pool }
    ensures kept { IfOk result (λ _. IsMadeTo plans.now request.now size (node + 1) enumeration.new) }
    ensures within { IfOk result (λ _. enumeration.new.total ≤ request.now.pool) }
    ensures same { 0 < node → IfOk result (λ _.
        length enumeration.new.due.items ≡ length enumeration.old.due.items) }
    ensures over { IfErr result (AreTooManyAt plans.now request.now size (node + 1)) }
{
    let node_plans = &plans[node as usize];
    let numbers = make(
        alloc,
        &mut enumeration.bank,
        &enumeration.cells,
        node_plans.as_slice(),
        size,
        request.pool - enumeration.total,
    )?;
    add_due(
        &enumeration.bank,
        node,
        numbers.as_slice(),
        size,
        request,
        &mut enumeration.due,
    )?;
    enumeration.total += numbers.len() as u64;
    enumeration.cells.push(numbers)?;
    Ok(())
}
