ghost use Rattle.std.specs.Prelude.{◌≡◌, ℕ, ◌<◌, ◌≤◌, ◌^◌, IfOk, IfErr, [], length, map};
ghost use Rattle.cls_term.specs.Banks.{at, term_by};
ghost use Rattle.cls_base.specs.Lists.{AreBelow};
ghost use Rattle.cls_enum.specs.CellTables.{cell_at, cell_of};
ghost use Rattle.cls_enum.specs.Faults.{IfTooMany};
ghost use Rattle.cls_enum.specs.Members.{AreFound, IsCell, IsGrown, IsOverfull};
ghost use Rattle.cls_enum.specs.Plans.{PlansPruned, plan_candidates};

use crate::PageFault;
use crate::cells::Cells;
use crate::find::find;
use crate::held::Held;
use crate::plan::Plan;
use cls_base::OutOfMemory;
use cls_term::{Bank, SpineSet};
use std::alloc::Global;

/// Makes the terms of one size of a node with these plans, and gives their numbers in the order of their codes.
pub(crate) fn make(
    alloc: Global,
    bank: &mut Bank,
    cells: &Cells,
    plans: &[Plan],
    size: u32,
    limit: u64,
) -> Result<Vec<u32>, PageFault>
    requires below { (t n : ℕ) → AreBelow (length bank.old) (cell_at cells.now t n) }
    requires small { size < 2 ^ 31 }
    requires pruned { PlansPruned (cell_of bank.old cells.now) plans.now }
    ensures grown { IfOk result (λ _. IsGrown bank.old bank.new) }
    ensures cell { IfOk result (λ numbers.
        IsCell bank.new (plan_candidates (cell_of bank.old cells.now) size plans.now) numbers.items) }
    ensures within { IfOk result (λ numbers. length numbers.items ≤ limit) }
    ensures over { IfErr result (λ fault. IfTooMany fault
        (IsOverfull limit [] (plan_candidates (cell_of bank.old cells.now) size plans.now))) }
{
    let held = Held { bank, cells, limit };
    let found = find(alloc, &held, plans, size)?;
    if found.len() as u64 > limit {
        return Err(PageFault::TooManyTerms);
    }
    let mut numbers = put_all(alloc, bank, &found)?;
    bank.sort_by_code(&mut numbers);
    Ok(numbers)
}

/// Puts the terms of the spines into the bank.
fn put_all(alloc: Global, bank: &mut Bank, found: &SpineSet) -> Result<Vec<u32>, OutOfMemory>
    requires { AreFound bank.old found.now }
    ensures grown { IfOk result (λ _. IsGrown bank.old bank.new) }
    ensures terms { IfOk result (λ numbers. map (at bank.new) numbers.items ≡ map (term_by bank.old) found.now) }
    ensures below { IfOk result (λ numbers. AreBelow (length bank.new) numbers.items) }
{
    let mut numbers = Vec::new(alloc);
    for i in 0..found.len() {
        if bank.count() == u32::MAX {
            return Err(OutOfMemory);
        }
        numbers.push(bank.put(alloc, found.head(i), found.args(i))?)?;
    }
    Ok(numbers)
}
