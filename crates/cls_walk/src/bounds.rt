//! Bounds of the numbers of terms by size and node, by arithmetic over those of smaller terms.
ghost use Rattle.std.specs.Prelude.{ℕ, ◌+◌, ◌<◌, ◌≤◌, ◌^◌, OnOk};
ghost use Rattle.cls_term.specs.Costs.{cost_of};
ghost use Rattle.cls_walk.specs.Bounds.{HasLower, HasUpper};

use crate::lower::lower_column;
use crate::stage::Stage;
use crate::table::Table;
use crate::upper::upper_column;
use cls_base::{Numbers, OutOfMemory, RuleBook};
use std::alloc::Global;

/// Adds the upper bounds for one more size.
pub(crate) fn add_upper<B: RuleBook>(
    alloc: Global,
    book: &B,
    costs: &Numbers,
    table: &mut Table,
    size: u32,
) -> Result<(), OutOfMemory>
    requires small { size < 2 ^ 31 }
    requires costs { (x : ℕ) → 1 ≤ cost_of costs.now x }
    requires upper { HasUpper (B.book book.now) (cost_of costs.now) size table.old }
    ensures { OnOk result (HasUpper (B.book book.now) (cost_of costs.now) (size + 1) table.new) }
{
    let column = upper_column(alloc, &Stage { table, costs, size }, book)?;
    table.push(column)?;
    Ok(())
}

/// Adds the lower bounds for one more size.
pub(crate) fn add_lower<B: RuleBook>(
    alloc: Global,
    book: &B,
    costs: &Numbers,
    table: &mut Table,
    size: u32,
) -> Result<(), OutOfMemory>
    requires small { size < 2 ^ 31 }
    requires lower { HasLower (B.book book.now) (cost_of costs.now) size table.old }
    ensures { OnOk result (HasLower (B.book book.now) (cost_of costs.now) (size + 1) table.new) }
{
    let column = lower_column(alloc, &Stage { table, costs, size }, book)?;
    table.push(column)?;
    Ok(())
}
