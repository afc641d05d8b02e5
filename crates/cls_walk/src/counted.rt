//! Upper bounds, size after size, until they tell how far a walk has to go, or that it may hold too many terms.
ghost use Rattle.std.specs.Prelude.{◌≡◌, ℕ, true, ◌+◌, ◌≤◌, ◌<◌, ◌^◌, IfOk, IfSome, OnOk, option_copied};
ghost use Rattle.cls_base.specs.Limits.{max_term_length};
ghost use Rattle.cls_base.specs.Terms.{length_of};
ghost use Rattle.cls_term.specs.Costs.{cost_of};
ghost use Rattle.cls_walk.specs.Bounds.{HasUpper, IsWithin};
ghost use Rattle.cls_walk.specs.Tables.{capped, number_at};
ghost use Rattle.cls_walk.specs.Totals.{total_held};

use crate::bounds::add_upper;
use crate::numbers::plus;
use crate::table::Table;
use crate::totals::{column_total, due_of, held_at, size_of_cursor};
use cls_base::{Numbers, OutOfMemory, RuleBook};
use cls_term::Term;
use std::alloc::Global;

/// The upper bounds by size and node, for all sizes up to `last`.
#[derive(Drop)]
pub(crate) struct Counted {
    pub(crate) table: Table,
    pub(crate) last: u32,
}

/// The upper bounds up to a size, and no further than `last`: the first one at which they allow that more than
/// `take + 1` terms are due, or that more than `pool` pairs are pooled.
pub(crate) fn count<B: RuleBook>(
    alloc: Global,
    book: &B,
    costs: &Numbers,
    after: Option<&Term>,
    take: u32,
    pool: u64,
    last: u32,
) -> Result<Counted, OutOfMemory>
    requires last { last ≤ max_term_length }
    requires costs { (x : ℕ) → 1 ≤ cost_of costs.now x }
    requires token { IfSome (option_copied after) (λ a. length_of a < 2 ^ 32) }
    ensures within { IfOk result (λ counted. counted.last ≤ last) }
    ensures table { IfOk result (λ counted.
        HasUpper (B.book book.now) (cost_of costs.now) (counted.last + 1) counted.table) }
{
    let from = size_of_cursor(costs, after);
    let width = book.count();
    let mut table = Table::new(alloc);
    let mut made = 0;
    let mut due = 0;
    for size in 0..last {
        add_upper(alloc, book, costs, &mut table, size)?;
        due = plus(due, due_of(&table, size, from));
        if due > u64::from(take) + 1 || plus(made, table.get(size, 0)) > pool {
            return Ok(Counted { table, last: size });
        }
        made = plus(made, column_total(&table, size, width));
    }
    add_upper(alloc, book, costs, &mut table, last)?;
    Ok(Counted { table, last })
}

/// Adds the upper bounds for this size, unless they are there.
pub(crate) fn reach<B: RuleBook>(
    alloc: Global,
    book: &B,
    costs: &Numbers,
    counted: &mut Counted,
    size: u32,
) -> Result<(), OutOfMemory>
    requires small { size < 2 ^ 31 }
    requires next { size ≤ counted.old.last + 1 }
    requires costs { (x : ℕ) → 1 ≤ cost_of costs.now x }
    requires upper { HasUpper (B.book book.now) (cost_of costs.now) (counted.old.last + 1) counted.old.table }
    ensures reached { OnOk result (size ≤ counted.new.last) }
    ensures upper { OnOk result
        (HasUpper (B.book book.now) (cost_of costs.now) (counted.new.last + 1) counted.new.table) }
{
    if counted.last < size {
        add_upper(alloc, book, costs, &mut counted.table, size)?;
        counted.last = size;
    }
    Ok(())
}

/// Whether the upper bound tells that no more pairs than `pool` are pooled at this size.
pub(crate) fn is_within(table: &Table, size: u32, width: u32, pool: u64) -> bool
    ensures { result ≡ true → IsWithin pool (capped (total_held (number_at table.now) width size)) }
{
    let held = held_at(table, size, width);
    held <= pool && held < u64::MAX
}
